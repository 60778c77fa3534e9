// Whether the replay did what an entry says: its answer, its messages and its image.
ghost use Rattle.std.specs.Prelude.{◌≡◌, IfOk, OnOk};
ghost use Rattle.std.specs.Bool.{Decides};
ghost use Rattle.cds_stamps.specs.Members.{is_listed, members_of};
ghost use Rattle.cell_model.specs.Cells as model;
ghost use Rattle.cell_model.specs.Steps.{left_members};
ghost use Rattle.cds_cell.specs.ModelCells.{Stands};
ghost use Rattle.house_directory.specs.HouseMessages.{numbers_of};
ghost use Rattle.script_answers.specs.Texts.{answer_line};
ghost use Rattle.cds_explain.specs.PrivateComparing.{ArePostedAfter, HasImage, IsOwnLine, IsPosted, own_of};
ghost use Rattle.cds_explain.specs.PrivateReplays.{IfFault};

use crate::cause::Cause;
use cds_cell::Cell;
use cds_stamps::{AllocOr, HouseNo, Member};
use cell_script::Question;
use house_logs::PostedOctets;
use script_answers::{Answer, Serials, append_said};
use script_replay::{Reply, reply_to_question};
use std::alloc::{AllocError, Global};

/// An answer of a turn without the serial numbers of messages, which no house knows; none, if
/// nothing was done.
pub(crate) fn own_answer(alloc: Global, answer: &Answer) -> Option<Answer>
    ensures { result ≡ own_of answer.now }
{
    match answer {
        Answer::Posted(_) => Some(Answer::Done),
        Answer::Made(dir, stamp, _) => Some(Answer::Made(*dir, *stamp, Serials::new(alloc))),
        Answer::Stamped(stamp, _) => Some(Answer::Stamped(*stamp, Serials::new(alloc))),
        Answer::Epoch(epoch, _) => Some(Answer::Epoch(*epoch, Serials::new(alloc))),
        Answer::Taken(_) => Some(Answer::Taken(Serials::new(alloc))),
        Answer::Complete(stamp, _) => Some(Answer::Complete(*stamp, Serials::new(alloc))),
        _ => None,
    }
}

/// What an answer of one line says.
pub(crate) fn said_by(alloc: Global, answer: &Answer) -> Result<Vec<u8>, AllocError>
    ensures { IfOk result (λ v. v.items ≡ answer_line answer.now) }
{
    let mut line = Vec::new(alloc);
    append_said(alloc, &mut line, answer)?;
    Ok(line)
}

/// The fault of an answer that is another than this one.
pub(crate) fn other_answer(
    alloc: Global,
    own: &[u8],
    replayed: Vec<u8>,
) -> Result<Cause, AllocError> {
    Ok(Cause::OtherAnswer(Vec::from_slice(alloc, own)?, replayed))
}

/// The answer has to be that of the turn.
pub(crate) fn compare_answer(
    alloc: Global,
    own: &[u8],
    answer: &Answer,
) -> Result<(), AllocOr<Cause>>
    ensures same { OnOk result (IsOwnLine answer.now own.now) }
    ensures other { IfFault result (λ cause. ¬ IsOwnLine answer.now own.now) }
{
    let Some(told) = own_answer(alloc, answer) else {
        let text = said_by(alloc, answer)?;
        return Err(AllocOr::Fault(other_answer(alloc, own, text)?));
    };
    let text = said_by(alloc, &told)?;
    if text.as_slice() == own {
        return Ok(());
    }
    Err(AllocOr::Fault(other_answer(alloc, own, text)?))
}

/// Whether the message of a serial number is this one.
pub(crate) fn is_posted(cell: &Cell, serial: u64, to: HouseNo, octets: &[u8]) -> bool
    ensures { (g : model.Cell) → Stands cell.now g
        → Decides result (IsPosted g serial to.0 octets.now) }
{
    let Some(receiver) = cell.receiver(serial) else {
        return false;
    };
    let Some(message) = cell.message(serial) else {
        return false;
    };
    if receiver != to {
        return false;
    }
    message == octets
}

/// Whether the messages after the first ones, so many, are these.
pub(crate) fn are_posted(cell: &Cell, first: u64, posts: &[PostedOctets]) -> bool
    ensures { (g : model.Cell) → Stands cell.now g
        → Decides result (ArePostedAfter g first posts.now) }
{
    let posted = cell.posted();
    let mut serial = first;
    let mut rest = posts;
    'posts: while let Some((post, behind)) = rest.split_first() {
        let Some(next) = serial.checked_add(1) else {
            return false;
        };
        serial = next;
        if !is_posted(cell, serial, post.to, post.octets.list()) {
            return false;
        }
        rest = behind;
    }
    posted == serial
}

/// Whether this is the image of a house.
pub(crate) fn has_image(
    alloc: Global,
    cell: &Cell,
    house: HouseNo,
    image: &[u8],
) -> Result<bool, AllocError>
    ensures { (g : model.Cell) → Stands cell.now g
        → IfOk result (λ has. Decides has (HasImage g house.0 image.now)) }
{
    let told = reply_to_question(alloc, cell, &Question::OctetsHouse(house))?;
    match &told {
        Reply::Answer(Answer::Octets(octets)) => Ok(octets.list() == image),
        _ => Ok(false),
    }
}

// Whether a house is a member.
fn is_member(members: &[Member], house: HouseNo) -> bool
    ensures { result ≡ is_listed house.0 (members_of members.now) }
{
    members.iter().any(|member| member.house == house)
}

/// Whether these are the houses of the first list that the second one has no more, in their order.
pub(crate) fn have_left(before: &[Member], now: &[Member], left: &[HouseNo]) -> bool
    ensures { Decides result
        (left_members (members_of before.now) (members_of now.now) ≡ numbers_of left.now) }
{
    let mut rest = before;
    let mut leaving = left;
    'members: while let Some((member, behind)) = rest.split_first() {
        if !is_member(now, member.house) {
            match leaving.split_first() {
                Some((house, others)) if *house == member.house => leaving = others,
                _ => return false,
            }
        }
        rest = behind;
    }
    leaving.is_empty()
}
