// The form `run`: each line is replayed on a cell.
use crate::replayer::Replayer;
use cell_script::{ScriptLine, parse_line};
use line_forms::{DialogueForm, Said};
use reply_buffer::Waiting;
use std::alloc::{AllocError, Global};

impl DialogueForm for Replayer {
    ghost use Rattle.cell_model.specs.Cells.{Cell as Cell'};
    ghost use Rattle.cds_cell.specs.ModelCells.{Stands};
    ghost use Rattle.script_replay.specs.Replies.{run_dialogue};

    type Line = ScriptLine;

    ghost State = { Cell' };

    ghost dialogue = { run_dialogue };

    ghost is_at = { λ r g. Stands r.cell g };

    ghost is_said = { λ line. Unit {0} };

    ghost counted = { λ r. r.steps };

    fn parse(alloc: Global, line: &[u8]) -> Said<ScriptLine> {
        parse_line(alloc, line)
    }

    fn reply_to(
        &mut self,
        alloc: Global,
        number: u32,
        line: ScriptLine,
        waiting: &mut Waiting,
    ) -> Result<(), AllocError> {
        let answer = self.reply(alloc, line)?;
        waiting.add_answer(alloc, number, &answer)
    }
}
