ghost use Rattle.std.specs.Prelude.{◌≡◌, ℕ, ◌+◌, ◌-◌, ◌≤◌, ◌<◌, List, [], ◌∷◌, ◌++◌, length, take, drop, Some, Ok, Err, IfOk, IfErr, IsOkAnd, IsErrOf};
ghost use Rattle.std.specs.Prelude.{MatchOption, slice_get};
ghost use Rattle.std.specs.Option.{option_map};
ghost use Rattle.tower_codec.specs.Tower.{Floor, IsPart, IsFloor, AreFloors, IsTower, IsFault};
ghost use Rattle.tower_codec.specs.ReadingSteps.{Gives};
ghost use Rattle.tower_codec.specs.TowerReading.{length_at, part_at, floor_at, after_floors, body_at, known_part, after_known_part, known_floor};
ghost use Rattle.tower_codec.specs.TowerReading.{after_known_floor, known_floors};
ghost use Rattle.tower_codec.specs.FloorView.{floor_of};

use crate::TowerFault;
use std::marker::Model;

/// The two parts of a floor, borrowed from the octets of its tower.
#[derive(Clone, Copy, Debug, PartialEq, Eq)]
pub struct FloorView<'a> {
    /// What the floor is about: a protocol identifier and its data, of one octet at least.
    pub left: &'a [u8],
    /// The data that belong to the left part, which may be empty.
    pub right: &'a [u8],
}

/// A length at the front, and what follows it.
fn split_length(octets: &[u8], past: usize) -> Result<(usize, &[u8]), TowerFault>
    ensures { Gives (λ r. (r.0, r.1.now)) result (length_at past octets.now) }
{
    match octets {
        [low, high, rest @ ..] => Ok((usize::from(u16::from_le_bytes([*low, *high])), rest)),
        _ => Err(TowerFault::ShortLength(past)),
    }
}

/// A part of this length at the front, and what follows it.
fn split_part(octets: &[u8], len: usize, past: usize) -> Result<(&[u8], &[u8]), TowerFault>
    ensures { Gives (λ r. (r.0.now, r.1.now)) result (part_at past len octets.now) }
{
    if octets.len() < len {
        return Err(TowerFault::ShortPart(past));
    }
    Ok(octets.split_at(len))
}

/// A floor at the front, and what follows it.
#[tactic(auto, unfolding(crate::specs::TowerReading::floor_at))]
fn split_floor(octets: &[u8], past: usize) -> Result<(FloorView<'_>, &[u8]), TowerFault>
    requires { length octets.now ≤ past }
    ensures { Gives (λ r. (floor_of r.0, r.1.now)) result (floor_at past octets.now) }
{
    let (left_len, rest) = split_length(octets, past)?;
    if left_len == 0 {
        return Err(TowerFault::EmptyLeft(past - octets.len()));
    }
    let (left, rest) = split_part(rest, left_len, past)?;
    let (right_len, rest) = split_length(rest, past)?;
    let (right, rest) = split_part(rest, right_len, past)?;
    Ok((FloorView { left, right }, rest))
}

/// What follows so many floors.
fn skip_floors(octets: &[u8], count: u16, past: usize) -> Result<&[u8], TowerFault>
    requires { length octets.now ≤ past }
    ensures rest { Gives (λ rest. rest.now) result (after_floors past count octets.now) }
    ensures shorter { IfOk result (λ rest. length rest.now ≤ length octets.now) }
{
    let mut rest = octets;
    for _ in 0..count {
        let (_, after) = split_floor(rest, past)?;
        rest = after;
    }
    Ok(rest)
}

/// The number of floors of the tower at the front, and the octets of those floors.
#[tactic(auto, unfolding(crate::specs::TowerReading::body_at))]
fn split_tower(octets: &[u8]) -> Result<(u16, &[u8]), TowerFault>
    ensures { Gives (λ r. (r.0, r.1.now)) result (body_at octets.now) }
{
    let past = octets.len() + 1;
    match octets {
        [low, high, body @ ..] => {
            let count = u16::from_le_bytes([*low, *high]);
            let rest = skip_floors(body, count, past)?;
            Ok((count, &body[..body.len() - rest.len()]))
        }
        _ => Err(TowerFault::ShortCount(past)),
    }
}

/// A part that is known to stand at the front, and what follows it.
fn take_part(octets: &[u8]) -> (&[u8], &[u8])
    requires { (part : List ℕ) × (rest : List ℕ) × IsPart octets.now part rest }
    ensures part { result.0.now ≡ known_part octets.now }
    ensures rest { result.1.now ≡ after_known_part octets.now }
{
    let len = usize::from(u16::from_le_bytes([octets[0], octets[1]]));
    octets[2..].split_at(len)
}

/// A floor that is known to stand at the front, and what follows it.
fn take_floor(octets: &[u8]) -> (FloorView<'_>, &[u8])
    requires { (floor : Floor) × (rest : List ℕ) × IsFloor octets.now floor rest }
    ensures floor { floor_of result.0 ≡ known_floor octets.now }
    ensures rest { result.1.now ≡ after_known_floor octets.now }
{
    let (left, rest) = take_part(octets);
    let (right, rest) = take_part(rest);
    (FloorView { left, right }, rest)
}

/// What follows the first `n` of `count` floors that are known to stand there.
fn walk(octets: &[u8], count: u16, n: u16) -> &[u8]
    requires known { AreFloors octets.now (known_floors count octets.now) [] }
    requires within { n ≤ count }
    ensures known { AreFloors result.now (known_floors (count - n) result.now) [] }
    ensures floors { known_floors (count - n) result.now ≡ drop n (known_floors count octets.now) }
{
    let mut rest = octets;
    for _ in 0..n {
        let (_, after) = take_floor(rest);
        rest = after;
    }
    rest
}

/// A tower that lies in octets of somebody else's. Contracts see the list of its floors.
#[derive(Debug, Drop)]
pub struct TowerView<'a> {
    count: u16,
    body: &'a [u8],
}

impl<'a> Model for TowerView<'a> {
    ghost use Rattle.std.specs.Prelude.{List, []};
    ghost use Rattle.tower_codec.specs.Tower.{Floor, AreFloors};
    ghost use Rattle.tower_codec.specs.TowerReading.{known_floors};

    ghost Value = { List Floor };

    ghost view = { λ v. known_floors v.count v.body.now };

    ghost invariant = { λ v. AreFloors v.body.now (known_floors v.count v.body.now) [] };
}

impl<'a> TowerView<'a> {
    /// Reads the tower at the front of the octets, and says of how many octets it is. Octets may
    /// follow it.
    pub fn read(octets: &'a [u8]) -> Result<(TowerView<'a>, usize), TowerFault>
        // What is read is a tower at the front.
        ensures length { IfOk result (λ r. r.1 ≤ length octets.now) }
        ensures tower { IfOk result (λ r. IsTower r.0 (take r.1 octets.now)) }

        // A tower at the front is read, whatever follows it.
        ensures only { (floors : List Floor) (front rest : List ℕ)
            → IsTower floors front → octets.now ≡ front ++ rest
            → IsOkAnd result (λ r. (r.0 ≡ floors) × (r.1 ≡ length front)) }

        // What is no tower has its first fault, and no other.
        ensures fault { IfErr result (IsFault octets.now) }
        ensures each_fault { (fault : TowerFault)
            → IsFault octets.now fault → IsErrOf result fault }
    {
        let (count, body) = split_tower(octets)?;
        Ok((TowerView { count, body }, body.len() + 2))
    }

    /// How many floors there are.
    pub fn floors(&self) -> usize
        ensures { result ≡ length self.now }
    {
        usize::from(self.count)
    }

    /// The floor at this index, counted from 0. Finding it takes a step for each floor before it.
    pub fn floor(&self, n: usize) -> Option<FloorView<'a>>
        ensures { option_map floor_of result ≡ slice_get self.now n }
    {
        if n < usize::from(self.count) {
            let rest = walk(self.body, self.count, n as u16);
            let (floor, _) = take_floor(rest);
            Some(floor)
        } else {
            None
        }
    }

    /// The first floor, and the tower of those after it.
    pub fn split_first(&self) -> Option<(FloorView<'a>, TowerView<'a>)>
        ensures { MatchOption result (self.now ≡ []) (λ r. self.now ≡ floor_of r.0 ∷ r.1) }
    {
        if self.count == 0 {
            return None;
        }
        let (floor, body) = take_floor(self.body);
        let count = self.count - 1;
        Some((floor, TowerView { count, body }))
    }
}
