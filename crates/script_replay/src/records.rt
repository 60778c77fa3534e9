// What a cell answers about records: what a house holds, and the octets of messages and of images.
ghost use Rattle.std.specs.Prelude.{◌≡◌, IfOk, option_copied};
ghost use Rattle.std.specs.Option.{option_and_then};
ghost use Rattle.cell_model.specs.Cells as model;
ghost use Rattle.cell_model.specs.Steps.{message_at};
ghost use Rattle.cds_cell.specs.Recorded.{image_at, octets_of};
ghost use Rattle.cds_cell.specs.ModelCells.{Stands};
ghost use Rattle.record_fields.specs.Decoding.{decode_by};
ghost use Rattle.cds_records.specs.RecordOctets.{image_octets};
ghost use Rattle.cds_records.specs.Records.{message};
ghost use Rattle.script_replay.specs.Replies.{asked_of, dump_told, message_told, octets_told};
ghost use Rattle.script_replay.specs.PrivateRecords.{held_told, state_told};
ghost use Rattle.script_answers.specs.declared.answer.Answer.TheVariants as answer;

use cds_cell::{Cell, HouseState};
use cds_stamps::{AllocOr, DirId, HouseNo};
use cell_script::Octets;
use clearinghouse::{DirState, Held};
use script_answers::{Answer, ScriptRefusal};
use std::alloc::{AllocError, Global};

/// What a house has of a directory, told whole.
pub(crate) fn dump(
    alloc: Global,
    cell: &Cell,
    house: HouseNo,
    dir: DirId,
) -> Result<Answer, AllocError>
    ensures { (g : model.Cell) → Stands cell.now g
        → IfOk result (λ a. a ≡ dump_told g house.0 dir.0) }
{
    if cell.is_unknown(dir) {
        return Ok(Answer::Refused(ScriptRefusal::NoDirectory));
    }
    match cell.house(house) {
        Some(HouseState::Up(home)) => dump_state(alloc, home.state(dir)),
        Some(HouseState::Down(_)) => Ok(Answer::Refused(ScriptRefusal::Down)),
        None => Ok(Answer::Refused(ScriptRefusal::NoHouse)),
    }
}

// What there is of a directory, told whole.
fn dump_state(alloc: Global, state: Option<&DirState>) -> Result<Answer, AllocError>
    ensures { IfOk result (λ a. a ≡ state_told (option_copied state.entry)) }
{
    match state {
        Some(DirState::Held(held)) => dump_held(alloc, held),
        Some(DirState::Gone(_)) | None => Ok(Answer::Refused(ScriptRefusal::NoReplica)),
    }
}

fn dump_held(alloc: Global, held: &Held) -> Result<Answer, AllocError>
    ensures { IfOk result (λ a. a ≡ held_told held.now) }
{
    let members = held.members.copy(alloc)?;
    let table = held.replica.table.copy(alloc)?;
    Ok(Answer::Dump(held.epoch, held.replica.all_up_to, members, table))
}

/// The octets of a message of the bag.
pub(crate) fn message_octets(alloc: Global, cell: &Cell, serial: u64) -> Result<Answer, AllocError>
    ensures { (g : model.Cell) → Stands cell.now g
        → IfOk result (λ a. a ≡ octets_told (option_and_then octets_of (message_at g serial))) }
{
    match cell.message(serial) {
        Some(octets) => copied(alloc, octets),
        None => Ok(Answer::Refused(ScriptRefusal::NoMessage)),
    }
}

/// The octets of the image of a house: of one that is up as it would keep it now, of one that is
/// down as it kept it.
pub(crate) fn house_octets(alloc: Global, cell: &Cell, house: HouseNo) -> Result<Answer, AllocError>
    ensures { (g : model.Cell) → Stands cell.now g
        → IfOk result
        (λ a. a ≡ asked_of g house.0 (answer.Octets (image_octets (image_at g house.0)))) }
{
    match cell.house(house) {
        Some(HouseState::Up(home)) => Ok(Answer::Octets(Octets::of(home.image(alloc)?))),
        Some(HouseState::Down(image)) => copied(alloc, image.list()),
        None => Ok(Answer::Refused(ScriptRefusal::NoHouse)),
    }
}

fn copied(alloc: Global, octets: &[u8]) -> Result<Answer, AllocError>
    ensures { IfOk result (λ a. a ≡ answer.Octets octets.now) }
{
    Ok(Answer::Octets(Octets::of(octets.to_vec(alloc)?)))
}

/// Which message is at the front of octets.
pub(crate) fn decoded(alloc: Global, octets: &[u8]) -> Result<Answer, AllocError>
    ensures { IfOk result (λ a. a ≡ message_told (decode_by message octets.now)) }
{
    match cds_records::decode(alloc, octets) {
        Ok((message, used)) => Ok(Answer::Decoded(message.body.tag(), used)),
        Err(AllocOr::Fault(fault)) => Ok(Answer::Refused(ScriptRefusal::Octets(fault))),
        Err(AllocOr::OutOfMemory) => Err(AllocError),
    }
}
