// Who is master of a directory once houses are left out.
ghost use Rattle.std.specs.Prelude.{◌≡◌, ℕ, None, IfOk};
ghost use Rattle.std.specs.Option.{option_map};
ghost use Rattle.cds_stamps.specs.declared.numbers.HouseNo as number;
ghost use Rattle.cds_stamps.specs.Members.{member_of, members_of};
ghost use Rattle.cell_model.specs.Cells as model;
ghost use Rattle.cell_model.specs.Sets.{has};
ghost use Rattle.cds_cell.specs.CellHouses.{StandsState, StandsUp};
ghost use Rattle.cds_cell.specs.ModelCells.{Stands};
ghost use Rattle.house_directory.specs.HouseMessages.{numbers_of};
ghost use Rattle.mend_model.specs.Leaving.{best_of, better, candidate_of, held_since, new_master};
ghost use Rattle.mend_replay.specs.PrivateMasters.{as_candidate, epoch_since};

use cds_cell::{Cell, HouseState};
use cds_stamps::{AllocOr, DirId, EpochNo, HouseNo, Member, Members};
use clearinghouse::{Clearinghouse, DirState, StartFault};
use std::alloc::{AllocError, Global};

/// A house that could be master, and the epoch that it holds.
#[derive(Clone, Copy, Debug, PartialEq, Eq)]
pub(crate) struct Candidate {
    house: HouseNo,
    epoch: EpochNo,
}

/// The master of a directory without these houses: as before, if that one stays; else the member
/// that holds the latest epoch; or none.
pub(crate) fn new_master(
    alloc: Global,
    cell: &Cell,
    dir: DirId,
    members: &Members,
    without: &[HouseNo],
) -> Result<Option<HouseNo>, AllocError>
    ensures { (g : model.Cell) → Stands cell.now g → g.present dir.0 ≡ members_of members.now
        → IfOk result
        (λ m. option_map (λ h. h.0) m ≡ new_master g dir.0 (numbers_of without.now)) }
{
    let master = members.master();
    if !is_among(master, without) {
        return Ok(Some(master));
    }
    match best_of(alloc, cell, dir, members.list(), without)? {
        Some(best) => Ok(Some(best.house)),
        None => Ok(None),
    }
}

// The member that stays and holds the latest epoch, of its `since` or later; of two at one epoch,
// the first.
fn best_of(
    alloc: Global,
    cell: &Cell,
    dir: DirId,
    members: &[Member],
    without: &[HouseNo],
) -> Result<Option<Candidate>, AllocError>
    ensures { (g : model.Cell) → Stands cell.now g
        → IfOk result (λ c. option_map as_candidate c
        ≡ best_of g dir.0 (numbers_of without.now) None (members_of members.now)) }
{
    let mut best = None;
    for member in members {
        let next = candidate_of(alloc, cell, dir, without, member)?;
        best = better(best, next);
    }
    Ok(best)
}

// The one that holds a later epoch; of two at one epoch, the first.
fn better(so_far: Option<Candidate>, next: Option<Candidate>) -> Option<Candidate>
    ensures { option_map as_candidate result
        ≡ better (option_map as_candidate so_far) (option_map as_candidate next) }
{
    match (so_far, next) {
        (None, other) => other,
        (Some(best), None) => Some(best),
        (Some(best), Some(other)) => {
            if best.epoch.0 < other.epoch.0 {
                Some(other)
            } else {
                Some(best)
            }
        }
    }
}

// A member as one that could be master, if it stays and holds the directory at its `since` or
// later.
fn candidate_of(
    alloc: Global,
    cell: &Cell,
    dir: DirId,
    without: &[HouseNo],
    member: &Member,
) -> Result<Option<Candidate>, AllocError>
    ensures { (g : model.Cell) → Stands cell.now g
        → IfOk result (λ c. option_map as_candidate c
        ≡ candidate_of g dir.0 (numbers_of without.now) (member_of member.now)) }
{
    if is_among(member.house, without) {
        return Ok(None);
    }
    match held_since(alloc, cell, dir, member.house, member.since)? {
        Some(epoch) => Ok(Some(Candidate {
            house: member.house,
            epoch,
        })),
        None => Ok(None),
    }
}

// The epoch of what a house holds, if that is a replica of this epoch or a later one. Of a house
// that is down it is read from its image.
fn held_since(
    alloc: Global,
    cell: &Cell,
    dir: DirId,
    house: HouseNo,
    since: EpochNo,
) -> Result<Option<EpochNo>, AllocError>
    ensures { (g : model.Cell) → Stands cell.now g
        → IfOk result
        (λ e. option_map (λ k. k.0) e ≡ held_since ((g.house house.0).slots dir.0) since.0) }
{
    match cell.house(house) {
        Some(state) => state_since(alloc, state, dir, since),
        None => Ok(None),
    }
}

// The same of what there is of a house. (The octets of a house that is down are always an image.)
fn state_since(
    alloc: Global,
    state: &HouseState,
    dir: DirId,
    since: EpochNo,
) -> Result<Option<EpochNo>, AllocError>
    ensures { (x : number.HouseNo) (now : model.House) → StandsState x state.now now
        → IfOk result (λ e. option_map (λ k. k.0) e ≡ held_since (now.slots dir.0) since.0) }
{
    match state {
        HouseState::Up(home) => Ok(home_since(home, dir, since)),
        HouseState::Down(image) => match Clearinghouse::start(alloc, image.list()) {
            Ok(home) => Ok(home_since(&home, dir, since)),
            Err(AllocOr::Fault(StartFault::BadImage(_))) => Ok(None),
            Err(AllocOr::OutOfMemory) => Err(AllocError),
        },
    }
}

// The same of a house that is up.
fn home_since(home: &Clearinghouse, dir: DirId, since: EpochNo) -> Option<EpochNo>
    ensures { (x : number.HouseNo) (now : model.House) → StandsUp x home.now now
        → option_map (λ k. k.0) result ≡ held_since (now.slots dir.0) since.0 }
{
    match home.state(dir) {
        Some(DirState::Held(held)) => epoch_since(held.epoch, since),
        Some(DirState::Gone(_)) | None => None,
    }
}

// This epoch, if it is that one or a later one.
fn epoch_since(held: EpochNo, since: EpochNo) -> Option<EpochNo>
    ensures { option_map (λ k. k.0) result ≡ epoch_since held.0 since.0 }
{
    if since.0 <= held.0 { Some(held) } else { None }
}

/// Whether a house is one of these.
pub(crate) fn is_among(house: HouseNo, houses: &[HouseNo]) -> bool
    ensures { result ≡ has house.0 (numbers_of houses.now) }
{
    for other in houses {
        if house == *other {
            return true;
        }
    }
    false
}
