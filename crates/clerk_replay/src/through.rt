// What a clerk answers to `read`.
ghost use Rattle.std.specs.Prelude.{◌≡◌, IfOk};
ghost use Rattle.cell_names.specs.ChildPointers.{pointer_in};
ghost use Rattle.clerk_replay.specs.Clerking.{read_by_clerk, values_told};

use cds_stamps::{AllocOr, AttrName, SimpleName};
use cell_names::{ChildPointer, FullName};
use clerk_cache::Clerk;
use ns_commands::refusal_of_walk;
use resolver::EntryReader;
use script_answers::{Answer, ScriptRefusal, Values};
use std::alloc::{AllocError, Global};

/// The values of an attribute of the entry that a name leads to, links followed, each question at
/// low confidence through the clerk. What it keeps gets the line `now`.
pub(crate) fn read_through<R: EntryReader>(
    alloc: Global,
    clerk: &mut Clerk,
    reader: &R,
    now: u32,
    name: &FullName,
    attr: &AttrName,
) -> Result<Answer, AllocError>
    ensures { IfOk result
        (λ a. (a, clerk.new) ≡ read_by_clerk now (R.tells reader.now) name.now attr.now clerk.old) }
{
    match clerk.resolve(alloc, reader, now, name) {
        Ok((at, found)) => values_through(alloc, clerk, reader, now, &at, &found.name, attr),
        Err(AllocOr::Fault(refusal)) => Ok(Answer::Refused(refusal_of_walk(refusal))),
        Err(AllocOr::OutOfMemory) => Err(AllocError),
    }
}

// The values of an attribute of an entry of a directory, through the clerk.
fn values_through<R: EntryReader>(
    alloc: Global,
    clerk: &mut Clerk,
    reader: &R,
    now: u32,
    at: &ChildPointer,
    name: &SimpleName,
    attr: &AttrName,
) -> Result<Answer, AllocError>
    ensures { IfOk result (λ a. (a, clerk.new)
        ≡ values_told now (R.tells reader.now) (pointer_in at.now) name.now attr.now clerk.old) }
{
    match clerk.values(alloc, reader, false, now, at, name, attr)? {
        Some(values) => Ok(Answer::Values(Values::of(values))),
        None => Ok(Answer::Refused(ScriptRefusal::Vanished)),
    }
}
