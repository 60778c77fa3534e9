// The forms that read their whole input and then say one thing.
ghost use Rattle.std.specs.Prelude.{◌≡◌, [], IfOk, IfErr, OnOk, Err};
ghost use Rattle.cell_replay.specs.declared.limits.TheConstants.{WHOLE_SIGHT};
ghost use Rattle.cell_replay.specs.FormReadings.{HasReadFew, by_whole};
ghost use Rattle.cell_replay.specs.WholeDemand.{Migrating, Auditing, said_of, too_long_text};
ghost use Rattle.cds_base.specs.RunEnds.{run_of};
ghost use Rattle.line_forms.specs.Runs.{Ended};
ghost use Rattle.line_forms.specs.Endings.{Finishes, side_of};
ghost use Rattle.cell_replay.specs.PrivateWholes.{IsPartRead, IsSaid, SaysEnd, StopsWithin, task_of};

use crate::audits::{print_pair_fault, print_verdict};
use crate::limits::WHOLE_SIGHT;
use cds_base::{Failed, Sink, Source, Window, put_all};
use cds_records::migrate_image;
use cds_stamps::{AllocOr, DirId};
use image_audit::audit_octets;
use line_forms::Status;
use script_answers::print_fault;
use std::alloc::{AllocError, Global};

// The octets that are read at once, and how often: together as many as are read at most.
const PART: usize = 24_929;

const PARTS: u32 = 673;

/// What is made of a whole input.
#[derive(Clone, Copy, Debug, PartialEq, Eq)]
pub(crate) enum Whole {
    Migrate,
    /// Of this directory.
    Audit(u32),
}

/// What is said of a whole input: a text, or that of its fault.
#[derive(Drop)]
enum Said {
    Text(Vec<u8>),
    Fault(Vec<u8>),
}

// The octets of an image in format 2; nothing is said of its fault.
fn migrate(alloc: Global, octets: &[u8]) -> Result<Said, AllocError>
    ensures { IfOk result (λ said. IsSaid said (said_of Migrating octets.now)) }
{
    match migrate_image(alloc, octets) {
        Ok(image) => Ok(Said::Text(image)),
        Err(AllocOr::Fault(_)) => Ok(Said::Fault(Vec::new(alloc))),
        Err(AllocOr::OutOfMemory) => Err(AllocError),
    }
}

// What an audit of a directory in two images tells, or the fault of one of them.
fn audit(alloc: Global, dir: u32, octets: &[u8]) -> Result<Said, AllocError>
    ensures { IfOk result (λ said. IsSaid said (said_of (Auditing dir) octets.now)) }
{
    match audit_octets(alloc, octets, DirId(dir)) {
        Ok(verdict) => Ok(Said::Text(print_verdict(alloc, dir, &verdict)?)),
        Err(AllocOr::Fault(fault)) => Ok(Said::Fault(print_pair_fault(alloc, fault)?)),
        Err(AllocOr::OutOfMemory) => Err(AllocError),
    }
}

// What is said of the whole input.
fn say(alloc: Global, whole: Whole, octets: &[u8]) -> Result<Said, AllocError>
    ensures { IfOk result (λ said. IsSaid said (said_of (task_of whole) octets.now)) }
{
    match whole {
        Whole::Migrate => migrate(alloc, octets),
        Whole::Audit(dir) => audit(alloc, dir, octets),
    }
}

// What is said of an input of too many octets.
fn too_long(alloc: Global, whole: Whole) -> Result<Said, AllocError>
    ensures { IfOk result (λ said. IsSaid said (Err (too_long_text (task_of whole)))) }
{
    match whole {
        Whole::Migrate => Ok(Said::Fault(Vec::new(alloc))),
        Whole::Audit(_) => Ok(Said::Fault(print_fault(alloc, 1, "TooLong", WHOLE_SIGHT)?)),
    }
}

// Ends with a text, and nothing else is written.
fn end_with<K: Sink>(text: Vec<u8>, sink: &mut K, status: Status) -> Status
    ensures { Finishes (side_of K.written K.faults sink.old)
        (side_of K.written K.faults sink.new) text.items status result }
{
    match put_all(sink, &text) {
        Ok(()) => status,
        Err(_) => Status::WriteFault,
    }
}

// Ends with what is said, where there was memory for it.
fn end_saying<K: Sink>(said: Result<Said, AllocError>, sink: &mut K) -> Status
    ensures { SaysEnd said (side_of K.written K.faults sink.old)
        (side_of K.written K.faults sink.new) result }
{
    match said {
        Ok(Said::Text(text)) => end_with(text, sink, Status::Ok),
        Ok(Said::Fault(text)) => end_with(text, sink, Status::BadInput),
        Err(AllocError) => Status::OutOfMemory,
    }
}

// Reads one part more of the input into an empty window, and puts it after the octets held. Answers
// whether the input ended.
fn read_part<S: Source>(
    window: &mut Window,
    held: &mut Vec<u8>,
    source: &mut S,
) -> Result<bool, AllocOr<Failed>>
    requires { window.old.octets ≡ [] }
    ensures part { IfOk result (IsPartRead window.old.room
        (S.left source.old) (S.left source.new) held.old.items held.new.items) }
    ensures calm { OnOk result (S.faults source.new ≡ S.faults source.old) }
    ensures empty { OnOk result (window.new.octets ≡ []) }
    ensures room { OnOk result (window.new.room ≡ window.old.room) }
    ensures err { IfErr result (StopsWithin window.old.room
        (side_of S.left S.faults source.old) (side_of S.left S.faults source.new)) }
{
    let ended = window.fill(source).map_err(AllocOr::Fault)?;
    let read = window.octets().len();
    held.extend_from_slice(window.octets())?;
    window.consume(read);
    Ok(ended)
}

// Reads the whole input after the octets held, up to one octet more than it may have. Answers
// whether it ended before.
fn read_whole<S: Source>(
    alloc: Global,
    held: &mut Vec<u8>,
    source: &mut S,
) -> Result<bool, AllocOr<Failed>>
    ensures part { IfOk result (IsPartRead WHOLE_SIGHT
        (S.left source.old) (S.left source.new) held.old.items held.new.items) }
    ensures calm { OnOk result (S.faults source.new ≡ S.faults source.old) }
    ensures err { IfErr result (StopsWithin WHOLE_SIGHT
        (side_of S.left S.faults source.old) (side_of S.left S.faults source.new)) }
{
    let mut window = Window::new(alloc, PART)?;
    for _ in 0..PARTS {
        if read_part(&mut window, held, source)? {
            return Ok(true);
        }
    }
    Ok(false)
}

/// The whole of such a form.
pub(crate) fn say_whole<S: Source, K: Sink>(
    alloc: Global,
    whole: Whole,
    source: &mut S,
    sink: &mut K,
) -> Status
    ensures ends { Ended (by_whole (task_of whole))
        (run_of S.Source K.Sink source.old source.new sink.old sink.new) result }
    ensures few { HasReadFew
        (run_of S.Source K.Sink source.old source.new sink.old sink.new) }
{
    let mut held = Vec::new(alloc);
    match read_whole(alloc, &mut held, source) {
        Ok(true) => end_saying(say(alloc, whole, &held), sink),
        Ok(false) => end_saying(too_long(alloc, whole), sink),
        Err(AllocOr::Fault(_)) => Status::ReadFault,
        Err(AllocOr::OutOfMemory) => Status::OutOfMemory,
    }
}
