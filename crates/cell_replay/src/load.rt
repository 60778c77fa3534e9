// The form `load`: a cell replays a script that is made and not read.
ghost use Rattle.std.specs.Prelude.{◌≡◌, ◌≤◌, IfOk};
ghost use Rattle.cell_replay.specs.FormReadings.{without_input};
ghost use Rattle.script_replay.specs.Loading.{load_text};
ghost use Rattle.line_forms.specs.Endings.{EndsBetween, Side, side_of};
ghost use Rattle.cell_replay.specs.declared.limits.TheConstants.{MOST_ROUNDS};

use cds_base::Sink;
use cell_script::script_of;
use line_forms::{Status, stop_with};
use reply_buffer::Waiting;
use script_replay::Loader;
use std::alloc::{AllocError, Global};

/// The line of the script with so many rounds.
fn summary_line(alloc: Global, rounds: u32) -> Result<Vec<u8>, AllocError>
    requires least { 1 ≤ rounds }
    requires most { rounds ≤ MOST_ROUNDS }
    ensures { IfOk result (λ text. text.items ≡ load_text rounds) }
{
    let mut script = script_of(rounds);
    let mut loader = Loader::new(alloc);
    'commands: loop {
        match script.next(alloc)? {
            Some(line) => loader.take(alloc, line)?,
            None => return loader.counts()?.print(alloc, rounds),
        }
    }
}

/// Loads a cell, and writes the summary.
pub(crate) fn load<K: Sink>(alloc: Global, rounds: u32, sink: &mut K) -> Status
    requires least { 1 ≤ rounds }
    requires most { rounds ≤ MOST_ROUNDS }
    ensures { (source : Side) → EndsBetween (without_input (load_text rounds)) source source
        (side_of K.written K.faults sink.old) (side_of K.written K.faults sink.new) result }
{
    let mut waiting = Waiting::new(alloc);
    stop_with(summary_line(alloc, rounds), &mut waiting, sink, Status::Ok)
}
