// Lines that change what a house holds: updates, skulks and epochs.
ghost use Rattle.std.specs.Prelude.{◌≡◌, ℕ, IfOk, option_copied};
ghost use Rattle.house_lines.specs.declared.line.HouseOrder.TheVariants as order;
ghost use Rattle.std.specs.FinMap as map;
ghost use Rattle.clearinghouse.specs.HouseLetters.{posts_at};
ghost use Rattle.house_turns.specs.PrivateTurns.{ArePostsOf, Does, epoch_of, epoch_refusal_of, posts_of_letters};

use crate::lists::given_members;
use crate::said::{Posts, Said, refused, turned};
use cds_cell::{house_list, refusal_in_script};
use cds_stamps::{DirId, EpochNo, HouseNo, SimpleName};
use clearinghouse::{Begun, Clearinghouse, DirState, EpochRefusal, Letters, Outgoing, Turn};
use directory::Update;
use house_lines::EpochList;
use script_answers::{Answer, ScriptRefusal, Serials};
use std::alloc::{AllocError, Global};

/// The letters of what is to be posted about a directory, if anything is.
pub(crate) fn letters(
    alloc: Global,
    home: &Clearinghouse,
    dir: DirId,
    outgoing: Option<&Outgoing>,
) -> Result<Option<Letters>, AllocError>
    ensures { IfOk result (λ o. ArePostsOf (posts_of_letters o)
        (posts_at home.now dir (option_copied outgoing.entry))) }
{
    match outgoing {
        Some(outgoing) => home.letters(alloc, dir, outgoing),
        None => Ok(None),
    }
}

/// An update of a directory.
pub(crate) fn update(
    alloc: Global,
    home: &mut Clearinghouse,
    clock: u64,
    number: u32,
    dir: DirId,
    update: &Update,
) -> Result<Said, AllocError>
    ensures { IfOk result
        (λ s. Does number home.old home.new clock (order.Update dir update.now) s) }
{
    let Turn { answer, outgoing } = home.accept_update(alloc, clock, dir, update)?;
    match answer {
        Ok(stamp) => {
            let posts = Posts::one(letters(alloc, home, dir, outgoing.as_ref())?);
            turned(alloc, posts, &Answer::Stamped(stamp, Serials::new(alloc)))
        }
        Err(refusal) => refused(alloc, number, refusal_in_script(alloc, refusal)),
    }
}

/// Other houses of a child's directory.
pub(crate) fn repoint(
    alloc: Global,
    home: &mut Clearinghouse,
    clock: u64,
    number: u32,
    dir: DirId,
    name: SimpleName,
    master: HouseNo,
    others: &[HouseNo],
) -> Result<Said, AllocError>
    ensures { IfOk result
        (λ s. Does number home.old home.new clock (order.Repoint dir name master others.now) s) }
{
    match house_list(alloc, master, others)? {
        Some(houses) => {
            let change = Update::Repoint(name, houses);
            update(alloc, home, clock, number, dir, &change)
        }
        None => refused(alloc, number, ScriptRefusal::BadMembers),
    }
}

/// A skulk of a directory.
pub(crate) fn skulk(
    alloc: Global,
    home: &mut Clearinghouse,
    clock: u64,
    number: u32,
    dir: DirId,
) -> Result<Said, AllocError>
    ensures { IfOk result
        (λ s. Does number home.old home.new clock (order.Skulk dir) s) }
{
    let Turn { answer, outgoing } = home.begin_skulk(clock, dir)?;
    let posts = Posts::one(letters(alloc, home, dir, outgoing.as_ref())?);
    match answer {
        Ok(Begun::Started(stamp)) => {
            turned(alloc, posts, &Answer::Stamped(stamp, Serials::new(alloc)))
        }
        Ok(Begun::Complete(stamp)) => {
            turned(alloc, posts, &Answer::Complete(stamp, Serials::new(alloc)))
        }
        Err(refusal) => refused(alloc, number, refusal_in_script(alloc, refusal)),
    }
}

// The epoch in which a house holds a directory, if it does.
fn epoch_held(home: &Clearinghouse, dir: DirId) -> Option<EpochNo>
    ensures { result ≡ epoch_of (map.get home.now.dirs dir) }
{
    match home.state(dir) {
        Some(DirState::Held(held)) => Some(held.epoch),
        Some(DirState::Gone(_)) | None => None,
    }
}

// Why an epoch is not entered.
fn epoch_refused(refusal: EpochRefusal) -> ScriptRefusal
    ensures { result ≡ epoch_refusal_of refusal }
{
    match refusal {
        EpochRefusal::NoReplica => ScriptRefusal::NoReplica,
        EpochRefusal::NotJoined { held, since } => ScriptRefusal::NotJoined(held, since),
        EpochRefusal::StaleEpoch { held, given: _ } => ScriptRefusal::NotAbove(held),
    }
}

/// A new epoch of a directory.
pub(crate) fn epoch(
    alloc: Global,
    home: &mut Clearinghouse,
    number: u32,
    dir: DirId,
    epoch: EpochNo,
    list: &EpochList,
) -> Result<Said, AllocError>
    ensures { (clock : ℕ) → IfOk result
        (λ s. Does number home.old home.new clock (order.Epoch dir epoch list.now) s) }
{
    let Some(held) = epoch_held(home, dir) else {
        return refused(alloc, number, ScriptRefusal::NoReplica);
    };
    let Some(members) = given_members(alloc, home.number(), epoch, list)? else {
        return refused(alloc, number, ScriptRefusal::BadMembers);
    };
    if epoch.0 <= held.0 {
        return refused(alloc, number, ScriptRefusal::NotAbove(held));
    }
    if let Err(refusal) = home.enter_epoch(alloc, dir, epoch, &members)? {
        return refused(alloc, number, epoch_refused(refusal));
    }
    let posts = Posts {
        first: home.letters(alloc, dir, &Outgoing::Join)?,
        second: Some(home.leaves(alloc, dir, epoch, list.leaving.list())?),
    };
    turned(alloc, posts, &Answer::Epoch(epoch, Serials::new(alloc)))
}
