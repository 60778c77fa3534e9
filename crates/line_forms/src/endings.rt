// How a run ends.
ghost use Rattle.std.specs.Prelude.{◌≡◌, ◌++◌, ℕ, List, OnOk, OnErr, IfOk};
ghost use Rattle.line_forms.specs.Runs.{code_of};
ghost use Rattle.line_forms.specs.Endings.{Finishes, IsQueued, StopsWith, side_of};

use cds_base::{Sink, WordsFault};
use reply_buffer::Waiting;
use std::alloc::AllocError;

/// How a run ends.
#[derive(Clone, Copy, Debug, PartialEq, Eq)]
pub enum Status {
    Ok,
    Usage,
    BadInput,
    ReadFault,
    WriteFault,
    OutOfMemory,
    /// A journal has no room for what a line puts.
    JournalFull,
}

impl Status {
    /// The number that the process ends with.
    pub fn code(self) -> u8
        ensures { result ≡ code_of self }
    {
        match self {
            Status::Ok => 0,
            Status::Usage => 2,
            Status::BadInput => 3,
            Status::ReadFault => 4,
            Status::WriteFault => 5,
            Status::OutOfMemory => 6,
            Status::JournalFull => 7,
        }
    }

    /// How a program ends without the words of its command line.
    pub fn without_words(fault: WordsFault) -> Status
        ensures memory { fault ≡ WordsFault.OutOfMemory → result ≡ Status.OutOfMemory }
        ensures usage { fault ≡ WordsFault.NoText → result ≡ Status.Usage }
    {
        match fault {
            WordsFault::NoText => Status::Usage,
            WordsFault::OutOfMemory => Status::OutOfMemory,
        }
    }
}

/// Flushes what waits, and ends.
pub fn finish<K: Sink>(waiting: &mut Waiting, sink: &mut K, status: Status) -> Status
    ensures { Finishes (side_of K.written K.faults sink.old)
        (side_of K.written K.faults sink.new) waiting.old status result }
{
    match waiting.write_out(sink) {
        Ok(()) => status,
        Err(_) => Status::WriteFault,
    }
}

// A text waits after the others; the status then.
fn queue(text: Result<Vec<u8>, AllocError>, waiting: &mut Waiting, status: Status) -> Status
    ensures { (octets : List ℕ) → IfOk text (λ t. t.items ≡ octets)
        → IsQueued status octets waiting.old waiting.new result }
{
    match add_text(text, waiting) {
        Ok(()) => status,
        Err(AllocError) => Status::OutOfMemory,
    }
}

fn add_text(text: Result<Vec<u8>, AllocError>, waiting: &mut Waiting) -> Result<(), AllocError>
    ensures ok { (octets : List ℕ) → IfOk text (λ t. t.items ≡ octets)
        → OnOk result (waiting.new ≡ waiting.old ++ octets) }
    ensures err { OnErr result (waiting.new ≡ waiting.old) }
{
    let text = text?;
    waiting.add(&text)
}

/// Ends with a last text, where there was memory for it.
pub fn stop_with<K: Sink>(
    text: Result<Vec<u8>, AllocError>,
    waiting: &mut Waiting,
    sink: &mut K,
    status: Status,
) -> Status
    ensures { (octets : List ℕ) → IfOk text (λ t. t.items ≡ octets)
        → StopsWith (side_of K.written K.faults sink.old)
        (side_of K.written K.faults sink.new) status octets waiting.old result }
{
    let status = queue(text, waiting, status);
    finish(waiting, sink, status)
}
