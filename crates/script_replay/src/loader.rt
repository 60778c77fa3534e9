// A cell that is loaded, a command at a time.
ghost use Rattle.script_replay.specs.Counting.{IsCounting};

use crate::counts::Counts;
use crate::kinds::{accepts, completes, is_change, is_delivery};
use crate::replayer::Replayer;
use crate::shown::{first_table, shown_counts};
use cell_script::ScriptLine;
use std::alloc::{AllocError, Global};

/// A cell, how many commands it took, how many changes it accepted, and how many skulks became
/// complete by a delivery.
#[derive(Drop)]
pub struct Loader {
    replayer: Replayer,
    commands: u32,
    accepted: u32,
    complete: u32,
    ghost few: { IsCounting replayer commands accepted complete },
}

impl Loader {
    ghost use Rattle.std.specs.Prelude.{◌≡◌, ◌+◌, ◌<◌, ◌≤◌, IfOk, OnOk};
    ghost use Rattle.cds_base.specs.declared.scan.TheConstants.{MOST_LINES};
    ghost use Rattle.cell_model.specs.Cells as model;
    ghost use Rattle.cell_script.specs.declared.command.Command.{Command as Command'};
    ghost use Rattle.cell_script.specs.declared.command.ScriptLine.TheVariants as says;
    ghost use Rattle.cds_cell.specs.ModelCells.{Stands};
    ghost use Rattle.script_replay.specs.LoadSteps.{Takes, Tells};

    /// Over a cell without houses.
    pub fn new(alloc: Global) -> Loader
        ensures cell { Stands result.replayer.cell model.empty_cell }
        ensures commands { result.commands ≡ 0 }
        ensures accepted { result.accepted ≡ 0 }
        ensures complete { result.complete ≡ 0 }
    {
        Loader {
            replayer: Replayer::new(alloc),
            commands: 0,
            accepted: 0,
            complete: 0,
        }
    }

    /// Replays a command, and counts it.
    pub fn take(&mut self, alloc: Global, line: ScriptLine) -> Result<(), AllocError>
        requires { self.old.commands < MOST_LINES }
        ensures { (g : model.Cell) (c : Command') → Stands self.old.replayer.cell g
            → line ≡ says.Cell c → OnOk result (Takes self.old self.new g c) }
    {
        let changes = is_change(&line);
        let delivers = is_delivery(&line);
        self.commands += 1;
        let answer = self.replayer.reply(alloc, line)?;
        self.accepted += u32::from(accepts(changes, &answer));
        self.complete += u32::from(completes(delivers, &answer));
        Ok(())
    }

    /// The counts, and what shows at the first house.
    pub fn counts(&self) -> Result<Counts, AllocError>
        ensures { (g : model.Cell) → Stands self.now.replayer.cell g
            → IfOk result (λ counts. Tells counts self.now g) }
    {
        let (live, values) = shown_counts(first_table(self.replayer.cell()))?;
        Ok(Counts {
            commands: self.commands,
            accepted: self.accepted,
            complete: self.complete,
            live,
            values,
        })
    }
}
