// The theorem of this crate: a function that does nothing, whose contract it is.
ghost use Rattle.std.specs.Prelude.{◌≡◌, ◌≤◌, ℕ, List, Some};
ghost use Rattle.cds_stamps.specs.declared.stamp.Stamp.{Stamp};
ghost use Rattle.cell_model.specs.Turns.{stamp_at};
ghost use Rattle.script_replay.specs.Replies.{Numbered};
ghost use Rattle.script_replay.specs.Headline.{cell_after_script};
ghost use Rattle.script_replay.specs.Scripts.{IsScript};
ghost use Rattle.mend_model.specs.Leaving.{new_master};
ghost use Rattle.mend_replay.specs.MendLines.{mend_text};
ghost use Rattle.command_lines.specs.SayableCommands.{IsDirectory};
ghost use Rattle.mend_program.specs.Mended.{IsMended, members_without};

/// A script followed by the lines that mend a directory after it mends it without the houses that
/// are named, wherever there is such a directory, a house that stays can be its master, and this
/// one has a stamp left.
pub fn scripts_are_mended()
    ensures { (lines : List (List ℕ)) (said : List Numbered) (d : ℕ) (hs : List ℕ) (m : ℕ) (t : Stamp)
        → IsScript 1 lines said → IsDirectory d
        → 1 ≤ (cell_after_script said).top d
        → new_master (cell_after_script said) d hs ≡ Some m
        → stamp_at ((cell_after_script said).house m) ≡ Some t
        → IsMended lines said d t (members_without (cell_after_script said) d hs m)
        (mend_text d hs (cell_after_script said)) }
{}
