// A clerk's lines: each is read, taken, and answered.
ghost use Rattle.std.specs.Prelude.{◌≡◌};
ghost use Rattle.cds_base.specs.Lines.{IsFresh};
ghost use Rattle.cds_base.specs.RunEnds.{run_of};
ghost use Rattle.line_forms.specs.Endings.{side_of};
ghost use Rattle.clerk_program.specs.ClerkRuns.{RunEnds};
ghost use Rattle.clerk_program.specs.LineTurns.{TakesLine, status_of};

use cds_base::{LineFault, Lines, Sink, Source, put_all};
use clerk_turns::Clerk;
use line_forms::Status;
use std::alloc::Global;

// Takes a line, and writes what is said to it.
fn take_line<K: Sink>(
    alloc: Global,
    clerk: &mut Clerk,
    line: &[u8],
    sink: &mut K,
) -> Result<(), Status>
    ensures { TakesLine clerk.old line.now clerk.new (side_of K.written K.faults sink.old)
        (side_of K.written K.faults sink.new) result }
{
    let Ok(text) = clerk.next(alloc, line) else {
        return Err(Status::OutOfMemory);
    };
    match put_all(sink, &text) {
        Ok(()) => Ok(()),
        Err(_) => Err(Status::WriteFault),
    }
}

// How a run ends at a fault of the lines.
fn status_of(fault: LineFault) -> Status
    ensures { result ≡ status_of fault }
{
    match fault {
        LineFault::ReadFault => Status::ReadFault,
        _ => Status::BadInput,
    }
}

// Takes each line.
fn serve_lines<S: Source, K: Sink>(
    alloc: Global,
    clerk: &mut Clerk,
    lines: &mut Lines,
    source: &mut S,
    sink: &mut K,
) -> Status
    requires { IsFresh lines.old }
    ensures { RunEnds clerk.old
        (run_of S.Source K.Sink source.old source.new sink.old sink.new) result }
{
    'lines: loop {
        match lines.next(source) {
            Ok(Some(line)) => match take_line(alloc, clerk, line.octets, sink) {
                Ok(()) => {}
                Err(status) => return status,
            },
            Ok(None) => return Status::Ok,
            Err(fault) => return status_of(fault),
        }
    }
}

/// Takes the lines of the source, up to the end of the input or the first one that is none. What is
/// said to a line is written before the next one is read.
pub fn serve<S: Source, K: Sink>(
    alloc: Global,
    mut clerk: Clerk,
    source: &mut S,
    sink: &mut K,
) -> Status
    ensures { RunEnds clerk
        (run_of S.Source K.Sink source.old source.new sink.old sink.new) result }
{
    match Lines::new(alloc) {
        Ok(mut lines) => serve_lines(alloc, &mut clerk, &mut lines, source, sink),
        Err(_) => Status::OutOfMemory,
    }
}
