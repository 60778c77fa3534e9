// Questions.
ghost use Rattle.std.specs.Prelude.{◌≡◌, IfOk, option_copied};
ghost use Rattle.std.specs.FinMap as map;
ghost use Rattle.cds_records.specs.RecordOctets.{image_octets};
ghost use Rattle.clearinghouse.specs.HouseImages.{image_of};
ghost use Rattle.house_directory.specs.DirectoryTakes.{held_in};
ghost use Rattle.house_turns.specs.LineOutcomes.{Tells};
ghost use Rattle.house_turns.specs.HouseAnswers.{asked_said, dump_said, look_said, values_lines};
ghost use Rattle.house_turns.specs.PrivateTurns.{Says};
ghost use Rattle.house_turns.specs.PostTexts.{octets_lines};

use crate::said::{Said, refused, told};
use crate::showing::{directories, push_values, show, status};
use crate::texts::{push_all_octets, push_end};
use attr_sets::Value;
use cds_stamps::{AttrName, DirId, SimpleName};
use clearinghouse::{Clearinghouse, DirState, Held};
use house_lines::HouseQuestion;
use script_answers::{Answer, ScriptRefusal};
use std::alloc::{AllocError, Global};

/// What a house holds of a directory, if it holds it.
pub(crate) fn held(home: &Clearinghouse, dir: DirId) -> Option<&Held>
    ensures { option_copied result ≡ held_in (map.get home.now.dirs dir) }
{
    match home.state(dir) {
        Some(DirState::Held(held)) => Some(held),
        Some(DirState::Gone(_)) | None => None,
    }
}

/// What a house answers to a question.
pub(crate) fn ask(
    alloc: Global,
    home: &Clearinghouse,
    number: u32,
    question: &HouseQuestion,
) -> Result<Said, AllocError>
    ensures { IfOk result (λ s. Says number s (Tells (asked_said home.now question.now))) }
{
    match question {
        HouseQuestion::Dump(dir) => dump(alloc, home, number, *dir),
        HouseQuestion::Look(dir, name, attr) => look(alloc, home, number, *dir, name, attr),
        HouseQuestion::Show(high, dir, name) => show(alloc, home, number, *high, *dir, name),
        HouseQuestion::Status(dir) => status(alloc, home, number, *dir),
        HouseQuestion::Directories => directories(alloc, home, number),
        HouseQuestion::Image => image(alloc, home, number),
    }
}

// All that a house holds of a directory.
#[tactic(auto, using(crate::proofs::Asked::dump_absent, crate::proofs::Asked::dump_held))]
fn dump(alloc: Global, home: &Clearinghouse, number: u32, dir: DirId) -> Result<Said, AllocError>
    ensures { IfOk result (λ s. Says number s (Tells (dump_said (map.get home.now.dirs dir)))) }
{
    let Some(held) = held(home, dir) else {
        return refused(alloc, number, ScriptRefusal::NoReplica);
    };
    let members = held.members.copy(alloc)?;
    let table = held.replica.table.copy(alloc)?;
    let answer = Answer::Dump(held.epoch, held.replica.all_up_to, members, table);
    told(alloc, number, &answer)
}

// Values, a line each, and how many there are.
fn values_told(alloc: Global, number: u32, values: &[Value]) -> Result<Said, AllocError>
    ensures { IfOk result (λ s. Says number s (Tells (values_lines values.now))) }
{
    let mut text = Vec::new(alloc);
    push_values(&mut text, number, values)?;
    push_end(&mut text, number, values.len())?;
    Ok(Said::Told(text))
}

// The values that are shown of an attribute.
#[tactic(auto, using(crate::proofs::Asked::look_absent, crate::proofs::Asked::look_held))]
fn look(
    alloc: Global,
    home: &Clearinghouse,
    number: u32,
    dir: DirId,
    name: &SimpleName,
    attr: &AttrName,
) -> Result<Said, AllocError>
    ensures { IfOk result
        (λ s. Says number s (Tells (look_said name.now attr.now (map.get home.now.dirs dir)))) }
{
    let Some(held) = held(home, dir) else {
        return refused(alloc, number, ScriptRefusal::NoReplica);
    };
    match held.replica.table.values(alloc, name, attr)? {
        Some(values) => values_told(alloc, number, &values),
        None => refused(alloc, number, ScriptRefusal::NoSuchEntry),
    }
}

// The octets of the image of a house.
fn image(alloc: Global, home: &Clearinghouse, number: u32) -> Result<Said, AllocError>
    ensures { IfOk result
        (λ s. Says number s (Tells (octets_lines (image_octets (image_of home.now))))) }
{
    let octets = home.image(alloc)?;
    let mut text = Vec::new(alloc);
    push_all_octets(&mut text, number, &octets)?;
    Ok(Said::Told(text))
}
