// A law is a function without parameters and with an empty body: its contract is the theorem.
ghost use Rattle.std.specs.Prelude.{ℕ, ◌≤◌, ◌≡◌, List, Contains, None};
ghost use Rattle.cell_model.specs.Cells.{Cell};
ghost use Rattle.form_laws.specs.LastAnswers.{CompletesAlone, CompletesAtLast};
ghost use Rattle.cell_script.specs.Generated.{script};
ghost use Rattle.form_laws.specs.Unrefused.{IsNeverRefused, AllCommandsWork, AllComplete, Loads};
ghost use Rattle.form_laws.specs.Summaries.{CountsAll};
ghost use Rattle.cell_script.specs.declared.command.ScriptLine.{ScriptLine};
ghost use Rattle.clerk_cache.specs.declared.query.Kept.{Kept};
ghost use Rattle.clerk_cache.specs.declared.query.Query.{Query};
ghost use Rattle.clerk_replay.specs.Clerking.{Clerked, clerk_dialogue, low_read, start};
ghost use Rattle.script_replay.specs.Replies.{Numbered, run_dialogue};
ghost use Rattle.form_laws.specs.Settled.{Settles};
ghost use Rattle.form_laws.specs.Honesty.{IsHonest, cell_after_lines, dialogue_state};

/// A delivery answers Complete exactly where it brings the last missing answer of a second round.
pub fn a_last_answer_completes()
    ensures { (g : Cell) (n : ℕ) → CompletesAtLast g n }
{}

/// A skulk completes in the step that begins it exactly where its master is alone.
pub fn a_lone_master_completes()
    ensures { (g : Cell) (h d : ℕ) → CompletesAlone g h d }
{}

/// The model refuses no command of a script of up to 20000 rounds, and none of them is in vain:
/// each update is accepted, each message that is delivered is taken, and each skulk becomes
/// complete. After it the sixteen entries live at house 1.
pub fn script_is_never_refused()
    ensures refused { (n : ℕ) → n ≤ 20000 → IsNeverRefused (script n) }
    ensures works { (n : ℕ) → n ≤ 20000 → AllCommandsWork (script n) }
    ensures complete { (n : ℕ) → n ≤ 20000 → AllComplete (script n) }
    ensures summary { (n : ℕ) → n ≤ 20000 → CountsAll (script n) }
    ensures entries { (n : ℕ) → n ≤ 20000 → Loads (script n) }
{}

/// Each answer that the clerk keeps after lines of a script, however many, is one that the reader
/// over the cell before one of these lines gives to that question. That line is a `read` at low
/// confidence that prefers the question's house, and the clerk kept its number.
pub fn kept_answers_are_honest()
    ensures { (room : ℕ) (said : List Numbered) (e : Query × Kept)
        → Contains (dialogue_state clerk_dialogue (start room) said).clerk.kept.entries e
        → IsHonest said e }
{}

/// The cell goes on as that of `run`, and each line that does not read at low confidence is
/// answered as `run` answers it.
pub fn all_else_is_as_by_run()
    ensures cell { (room : ℕ) (said : List Numbered)
        → (dialogue_state clerk_dialogue (start room) said).cell ≡ cell_after_lines said }
    ensures text { (number : ℕ) (s : Clerked) (l : ScriptLine) → low_read l ≡ None
        → clerk_dialogue.text number s l ≡ run_dialogue.text number s.cell l }
{}

/// From a line on that is answered that a skulk is complete, each house that holds the directory at
/// its epoch or a later one agrees, up to the skulk's stamp, with what its master had then.
pub fn completed_lines_settle()
    ensures { (early : List Numbered) (l : Numbered) (late : List Numbered)
        → Settles early l late }
{}
