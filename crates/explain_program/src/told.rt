// What is said of an explanation: its script, and why entries and folders are not explained.
ghost use Rattle.std.specs.Prelude.{◌≡◌, ◌++◌, IfOk, OnOk};
ghost use Rattle.explain_program.specs.Endings.{HasReason, IsTold, status_of};
ghost use Rattle.explain_program.specs.Texts.{fault_line, fault_lines, folder_said, why_said};

use crate::folder::FolderFault;
use crate::status::Status;
use cds_explain::{Ending, Explanation};
use script_answers::push_number;
use std::alloc::{AllocError, Global};

/// Why a folder, by its place on the command line, is not read to its end.
#[derive(Clone, Copy, Drop)]
pub(crate) struct PlacedFault {
    pub(crate) place: usize,
    pub(crate) fault: FolderFault,
}

/// What is written, and the status with which the program ends then.
#[derive(Drop)]
pub(crate) struct Told {
    pub(crate) text: Vec<u8>,
    pub(crate) status: Status,
}

// Adds the place of a folder, at the beginning of a line.
fn push_folder(text: &mut Vec<u8>, place: usize) -> Result<(), AllocError>
    ensures { OnOk result (text.new.items ≡ text.old.items ++ folder_said place) }
{
    text.extend_from_slice(b"# unexplained: folder ")?;
    push_number(text, place as u64)
}

// Adds why a folder is not read to its end, and ends the line.
fn push_why(text: &mut Vec<u8>, fault: FolderFault) -> Result<(), AllocError>
    ensures { OnOk result (text.new.items ≡ text.old.items ++ why_said fault) }
{
    text.extend_from_slice(b": ")?;
    fault.push(text)?;
    text.push(b'\n')?;
    Ok(())
}

// Adds the line of a folder, which is a comment of a script.
fn push_fault(text: &mut Vec<u8>, placed: PlacedFault) -> Result<(), AllocError>
    ensures { OnOk result (text.new.items ≡ text.old.items ++ fault_line placed) }
{
    push_folder(text, placed.place)?;
    push_why(text, placed.fault)
}

// Adds the lines of folders.
fn push_faults(text: &mut Vec<u8>, faults: &[PlacedFault]) -> Result<(), AllocError>
    ensures { OnOk result (text.new.items ≡ text.old.items ++ fault_lines faults.now) }
{
    for placed in faults {
        push_fault(text, *placed)?;
    }
    Ok(())
}

// Adds the reason of an explanation that ended early.
fn push_reason(alloc: Global, text: &mut Vec<u8>, ending: &Ending) -> Result<(), AllocError>
    ensures { OnOk result (HasReason ending.now text.old.items text.new.items) }
{
    match ending {
        Ending::Unexplained(reason) => reason.push(alloc, text),
        Ending::TooLong => Ok(()),
        Ending::Whole => Ok(()),
    }
}

// The status of an ending, of folders of which all are whole or not.
fn status_of(ending: &Ending, are_whole: bool) -> Status
    ensures { result ≡ status_of ending.now are_whole }
{
    match ending {
        Ending::TooLong => Status::TooLong,
        Ending::Unexplained(_) => Status::Unexplained,
        Ending::Whole => {
            if are_whole {
                Status::Ok
            } else {
                Status::Unexplained
            }
        }
    }
}

/// What is said of an explanation, where these folders are not read to their ends.
pub(crate) fn told_of(
    alloc: Global,
    explanation: Explanation,
    faults: &[PlacedFault],
) -> Result<Told, AllocError>
    ensures { IfOk result (IsTold explanation faults.now) }
{
    let Explanation { script, ending } = explanation;
    let status = status_of(&ending, faults.is_empty());
    let mut text = script;
    push_reason(alloc, &mut text, &ending)?;
    push_faults(&mut text, faults)?;
    Ok(Told { text, status })
}
