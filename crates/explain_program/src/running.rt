// The whole program over the octets of folders and a sink.
ghost use Rattle.std.specs.Prelude.{◌≡◌, IfOk};
ghost use Rattle.cds_base.specs.Counts.{Rose};
ghost use Rattle.explain_program.specs.Endings.{Ends, IsSaid};
ghost use Rattle.explain_program.specs.declared.status.Status.TheVariants as ends;

use crate::evidence::evidence_of;
use crate::folder::FolderOctets;
use crate::status::Status;
use crate::told::{Told, told_of};
use cds_base::{Sink, put_all};
use cds_explain::explain;
use std::alloc::{AllocError, Global};

// What is said of folders.
fn said_of(alloc: Global, folders: &[FolderOctets]) -> Result<Told, AllocError>
    ensures { IfOk result (λ t. IsSaid folders.now t.status t.text.items) }
{
    let evidence = evidence_of(alloc, folders)?;
    let explanation = explain(alloc, &evidence.logs)?;
    told_of(alloc, explanation, &evidence.faults)
}

/// The whole program: a script that explains the journals of folders is written. Where one of them
/// is not read to its end, or an entry is not explained, lines that say so come after the script.
pub fn run<K: Sink>(alloc: Global, folders: &[FolderOctets], sink: &mut K) -> Status
    ensures ends { Ends folders.now result (K.written sink.old) (K.written sink.new)
        (sink.new ≡ sink.old) }
    ensures fault { result ≡ ends.WriteFault → Rose (K.faults sink.old) (K.faults sink.new) }
{
    let Ok(told) = said_of(alloc, folders) else {
        return Status::OutOfMemory;
    };
    match put_all(sink, &told.text) {
        Ok(()) => told.status,
        Err(_) => Status::WriteFault,
    }
}
