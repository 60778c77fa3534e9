// The form of `cdsmend`: a script is replayed, and at its end comes what mends a directory.
ghost use Rattle.std.specs.Prelude.{◌≤◌};
ghost use Rattle.cds_base.specs.declared.scan.TheConstants.{MOST_LINES};

use crate::commands::mend_text;
use cds_stamps::{AllocOr, DirId, HouseNo};
use cell_script::{ScriptLine, parse_line};
use reply_buffer::{LineEnd, Waiting, reply_to_fault};
use script_replay::Replayer;
use std::alloc::{AllocError, Global};

/// What replays a script whose directory is to be mended.
#[derive(Drop)]
pub struct Mender {
    replayer: Replayer,
    dir: DirId,
    without: Vec<HouseNo>,
    ghost few: { replayer.steps ≤ MOST_LINES },
}

impl Mender {
    ghost use Rattle.std.specs.Prelude.{◌≡◌, ◌+◌, ◌<◌, ◌≤◌, IfOk};
    ghost use Rattle.cell_model.specs.Cells as model;
    ghost use Rattle.cell_script.specs.Words.{words_of};
    ghost use Rattle.cell_script.specs.CommandRows.{said_in};
    ghost use Rattle.cds_cell.specs.ModelCells.{Stands};
    ghost use Rattle.house_directory.specs.HouseMessages.{numbers_of};
    ghost use Rattle.line_forms.specs.Dialogues.{reply_of};
    ghost use Rattle.script_replay.specs.Replies.{cell_after};
    ghost use Rattle.mend_replay.specs.MendLines.{mend_text};
    ghost use Rattle.mend_replay.specs.Menders.{Mends, UnlessNoMemory};
    ghost use Rattle.mend_replay.specs.Quiet.{running_quietly};

    /// Over a cell without houses; it mends this directory without those houses. Takes no memory.
    pub fn new(alloc: Global, dir: DirId, without: Vec<HouseNo>) -> Mender
        ensures cell { Stands result.replayer.cell model.empty_cell }
        ensures dir { result.dir ≡ dir }
        ensures without { result.without ≡ without }
        ensures steps { result.replayer.steps ≡ 0 }
    {
        Mender {
            replayer: Replayer::new(alloc),
            dir,
            without,
        }
    }

    /// Replays a line: the reply to a fault waits after the others, and no other line is answered.
    pub fn take_line(
        &mut self,
        alloc: Global,
        number: u32,
        line: &[u8],
        waiting: &mut Waiting,
    ) -> LineEnd
        requires fewer { self.old.replayer.steps < number }
        requires most { number ≤ MOST_LINES }
        ensures reply { (g : model.Cell) → Stands self.old.replayer.cell g
            → Mends result
            (reply_of running_quietly number g
            (said_in (words_of line.now))) waiting.old waiting.new self.new }
        ensures dir { self.new.dir ≡ self.old.dir }
        ensures without { self.new.without ≡ self.old.without }
        ensures steps { self.new.replayer.steps ≤ number }
    {
        match parse_line(alloc, line) {
            Ok(Some(line)) => self.replay(alloc, line),
            Ok(None) => LineEnd::GoesOn,
            Err(AllocOr::Fault(fault)) => reply_to_fault(alloc, number, fault, waiting),
            Err(AllocOr::OutOfMemory) => LineEnd::NoMemory,
        }
    }

    // The cell goes on.
    fn replay(&mut self, alloc: Global, line: ScriptLine) -> LineEnd
        requires few { self.old.replayer.steps < MOST_LINES }
        ensures done { (g : model.Cell) → Stands self.old.replayer.cell g
            → UnlessNoMemory result (Stands self.new.replayer.cell (cell_after g line)) }
        ensures dir { self.new.dir ≡ self.old.dir }
        ensures without { self.new.without ≡ self.old.without }
        ensures steps { self.new.replayer.steps ≤ self.old.replayer.steps + 1 }
    {
        match self.replayer.reply(alloc, line) {
            Ok(_) => LineEnd::GoesOn,
            Err(AllocError) => LineEnd::NoMemory,
        }
    }

    /// The lines that mend the directory, or the line of the reason why none do. (A cell that is
    /// spent ran out of memory before.)
    pub fn print_lines(&self, alloc: Global) -> Result<Vec<u8>, AllocError>
        ensures { (g : model.Cell) → Stands self.now.replayer.cell g
            → IfOk result (λ text. text.items
            ≡ mend_text self.now.dir.0 (numbers_of self.now.without.items) g) }
    {
        let cell = self.replayer.cell();
        if cell.is_spent() {
            return Err(AllocError);
        }
        mend_text(alloc, cell, self.dir, self.without.as_slice())
    }
}
