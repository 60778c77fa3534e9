//! Laws of what is answered where lines may inquire: functions that do nothing, whose contracts are
//! proved.
ghost use Rattle.std.specs.Prelude.{◌≡◌, ℕ, List, Some, Ok};
ghost use Rattle.cell_model.specs.Cells.{Cell};
ghost use Rattle.cell_script.specs.declared.command.ScriptLine.{ScriptLine};
ghost use Rattle.cell_script.specs.CommandRows.{said_in};
ghost use Rattle.line_forms.specs.Dialogues.{transcript_by};
ghost use Rattle.script_replay.specs.Replies.{Numbered, transcript};
ghost use Rattle.inquire_forms.specs.declared.inquire_line.InquireLine.TheVariants as line;
ghost use Rattle.inquire_forms.specs.InquireLines.{inquired_in};
ghost use Rattle.inquire_replay.specs.Inquiring.{inquire_dialogue, plain_lines};

/// A line of a script says the same where lines may inquire, and each script is answered as it is
/// by `run`.
pub fn scripts_are_answered_as_before()
    ensures lines { (words : List (List ℕ)) (l : ScriptLine) → said_in words ≡ Ok (Some l)
        → inquired_in words ≡ Ok (Some (line.Plain l)) }
    ensures answers { (g : Cell) (said : List Numbered)
        → transcript_by inquire_dialogue g (plain_lines said) ≡ transcript g said }
{}
