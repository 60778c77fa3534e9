// The form `inquire`: each line is replayed on a cell, or asks it.
use crate::replies::{add_text, reply};
use inquire_forms::{InquireLine, parse_inquire_line};
use line_forms::{DialogueForm, Said};
use reply_buffer::Waiting;
use script_replay::Replayer;
use std::alloc::{AllocError, Global};

/// A cell that is replayed, and asked as well.
#[derive(Drop)]
pub struct Inquirer {
    replayer: Replayer,
}

impl Inquirer {
    ghost use Rattle.std.specs.Prelude.{◌≡◌};
    ghost use Rattle.cell_model.specs.Cells.{empty_cell};
    ghost use Rattle.cds_cell.specs.ModelCells.{Stands};

    /// Over a cell without houses. Takes no memory.
    pub fn new(alloc: Global) -> Inquirer
        ensures cell { Stands result.replayer.cell empty_cell }
        ensures steps { result.replayer.steps ≡ 0 }
    {
        Inquirer {
            replayer: Replayer::new(alloc),
        }
    }
}

impl DialogueForm for Inquirer {
    ghost use Rattle.cell_model.specs.Cells.{Cell};
    ghost use Rattle.cds_cell.specs.ModelCells.{Stands};
    ghost use Rattle.inquire_forms.specs.InquireLines.{WantsSome};
    ghost use Rattle.inquire_replay.specs.Inquiring.{inquire_dialogue};

    type Line = InquireLine;

    ghost State = { Cell };

    ghost dialogue = { inquire_dialogue };

    ghost is_at = { λ i g. Stands i.replayer.cell g };

    ghost is_said = { WantsSome };

    ghost counted = { λ i. i.replayer.steps };

    fn parse(alloc: Global, line: &[u8]) -> Said<InquireLine> {
        parse_inquire_line(alloc, line)
    }

    fn reply_to(
        &mut self,
        alloc: Global,
        number: u32,
        line: InquireLine,
        waiting: &mut Waiting,
    ) -> Result<(), AllocError> {
        let answer = reply(alloc, &mut self.replayer, line)?;
        add_text(alloc, number, &answer, waiting)
    }
}
