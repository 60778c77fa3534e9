// The run of a form that answers line by line.
ghost use Rattle.std.specs.Prelude.{◌≡◌, ◌≢◌};
ghost use Rattle.line_forms.specs.Readings.{by_lines};
ghost use Rattle.cds_base.specs.RunEnds.{run_of};
ghost use Rattle.line_forms.specs.Runs.{Ended};
ghost use Rattle.line_forms.specs.Leaving.{HoldsAt, Leaves};
ghost use Rattle.line_forms.specs.Endings.{StopsWith, side_of};

use crate::LineForm;
use crate::endings::{Status, finish, stop_with};
use cds_base::{LineFault, Lines, Sink, Source};
use reply_buffer::{LineEnd, Waiting};
use std::alloc::{AllocError, Global};

// Ends a run at the end of the input.
fn stop_at_end<F: LineForm, K: Sink>(
    alloc: Global,
    form: &F,
    waiting: &mut Waiting,
    sink: &mut K,
) -> Status
    ensures { (state : F.State) → F.is_at form.now state
        → StopsWith (side_of K.written K.faults sink.old)
        (side_of K.written K.faults sink.new) Status.Ok (F.rule.end_text state)
        waiting.old result }
{
    stop_with(form.print_end(alloc), waiting, sink, Status::Ok)
}

// Ends a run at a fault. Where a read failed nothing waits, and nothing is said.
fn stop_at<F: LineForm, K: Sink>(
    alloc: Global,
    form: &F,
    fault: LineFault,
    waiting: &mut Waiting,
    sink: &mut K,
) -> Status
    ensures read { fault ≡ LineFault.ReadFault
        → (result ≡ Status.ReadFault) × (sink.new ≡ sink.old) }
    ensures other { fault ≢ LineFault.ReadFault
        → StopsWith (side_of K.written K.faults sink.old)
        (side_of K.written K.faults sink.new) Status.BadInput
        (F.rule.fault_text fault) waiting.old result }
{
    match fault {
        LineFault::ReadFault => Status::ReadFault,
        fault => stop_with(
            form.print_fault(alloc, fault),
            waiting,
            sink,
            Status::BadInput,
        ),
    }
}

/// Answers the lines of the source from the form's start on: up to the end of the input, the first
/// fault, or the first line from which the form does not go on. A reply is written at the latest
/// before the source is read again. The form is left as it is after its last line.
pub fn serve_form<F: LineForm, S: Source, K: Sink>(
    alloc: Global,
    form: &mut F,
    source: &mut S,
    sink: &mut K,
) -> Status
    requires start { F.counted form.old ≡ 0 }
    ensures ends { (state : F.State) → F.is_at form.old state → Ended (by_lines F.rule state)
        (run_of S.Source K.Sink source.old source.new sink.old sink.new) result }
    ensures leaves { (state : F.State) → F.is_at form.old state
        → Leaves F.rule (F.is_kept form.new) (F.is_broken form.new) state
        (run_of S.Source K.Sink source.old source.new sink.old sink.new) result }
    ensures holds { (state : F.State) → F.is_at form.old state → F.holds LineEnd.GoesOn form.old
        → HoldsAt (λ end. F.holds end form.new) result }
{
    let Ok(mut lines) = Lines::new(alloc) else {
        return Status::OutOfMemory;
    };
    let mut waiting = Waiting::new(alloc);
    'lines: loop {
        let ready = lines.has_line();
        let Ok(()) = waiting.flush_before(ready, sink) else {
            return Status::WriteFault;
        };
        match lines.next(source) {
            Ok(Some(line)) => match form.answer(alloc, line.number, line.octets, &mut waiting) {
                LineEnd::GoesOn => {}
                LineEnd::Stops => return finish(&mut waiting, sink, Status::BadInput),
                LineEnd::NoMemory => return finish(&mut waiting, sink, Status::OutOfMemory),
                LineEnd::Full => return finish(&mut waiting, sink, Status::JournalFull),
            },
            Ok(None) => return stop_at_end(alloc, form, &mut waiting, sink),
            Err(fault) => return stop_at(alloc, form, fault, &mut waiting, sink),
        }
    }
}

/// The same of a form that is let go in the end.
pub fn serve_lines<F: LineForm + Drop, S: Source, K: Sink>(
    alloc: Global,
    mut form: F,
    source: &mut S,
    sink: &mut K,
) -> Status
    requires start { F.counted form ≡ 0 }
    ensures { (state : F.State) → F.is_at form state → Ended (by_lines F.rule state)
        (run_of S.Source K.Sink source.old source.new sink.old sink.new) result }
{
    serve_form(alloc, &mut form, source, sink)
}
