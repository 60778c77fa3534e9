// The houses of journals: in ascending order, and those without a journal that lines name.
ghost use Rattle.std.specs.Prelude.{◌≡◌, ◌<◌, ℕ, Some, IfNone, IfOk, IfSome, OnOk, length, slice_get};
ghost use Rattle.cell_model.specs.Sets.{In};
ghost use Rattle.house_logs.specs.declared.log.HouseLog.{HouseLog as HouseLog'};
ghost use Rattle.cds_explain.specs.PrivateExplainers.{HasTwin, IsFirstOfHouse, IsFirstOfNode};

use crate::cause::Cause;
use cds_stamps::{HouseNo, Member, Node};
use house_lines::HouseOrder;
use house_logs::{HouseLog, LogEntry};
use std::alloc::{AllocError, Global};

// How many numbers of houses there are.
const NUMBERS: usize = 256;

// Adds the places of the journals of the house of a number.
fn push_places(logs: &[HouseLog], number: usize, places: &mut Vec<usize>) -> Result<(), AllocError>
    ensures kept { OnOk result ((i : ℕ) → In i places.old.items → In i places.new.items) }
    ensures found { OnOk result ((i : ℕ) (log : HouseLog') → slice_get logs.now i ≡ Some log
        → log.house.0 ≡ number → In i places.new.items) }
    ensures fits { OnOk result ((i : ℕ) (log : HouseLog') → slice_get logs.now i ≡ Some log
        → log.house.0 < 256) }
{
    for place in 0..logs.len() {
        if usize::from(logs[place].house.0) == number {
            places.push(place)?;
        }
    }
    Ok(())
}

/// The places of journals, by the numbers of their houses.
pub(crate) fn in_order(alloc: Global, logs: &[HouseLog]) -> Result<Vec<usize>, AllocError>
    ensures { IfOk result (λ v. (i : ℕ) → i < length logs.now → In i v.items) }
{
    let mut places = Vec::new(alloc);
    for number in 0..NUMBERS {
        push_places(logs, number, &mut places)?;
    }
    Ok(places)
}

/// Why a journal is none of this cell: another one before it is of the same house or the same node.
pub(crate) fn twin_of(logs: &[HouseLog], place: usize) -> Option<Cause>
    ensures house { IfNone result (IsFirstOfHouse logs.now place) }
    ensures node { IfNone result (IsFirstOfNode logs.now place) }
    ensures twin { IfSome result (HasTwin logs.now place) }
{
    if place >= logs.len() {
        return None;
    }
    let log = &logs[place];
    for at in 0..place {
        let other = &logs[at];
        if other.house == log.house {
            return Some(Cause::HouseAgain);
        }
        if other.node == log.node {
            return Some(Cause::NodeOf(other.house));
        }
    }
    None
}

// Notes a house.
fn name_house(named: &mut Vec<bool>, house: HouseNo) {
    let at = usize::from(house.0);
    if at < named.len() {
        named[at] = true;
    }
}

// Notes houses.
fn name_houses(named: &mut Vec<bool>, houses: &[HouseNo]) {
    for house in houses {
        name_house(named, *house);
    }
}

// Notes the houses of members.
fn name_members(named: &mut Vec<bool>, members: &[Member]) {
    for member in members {
        name_house(named, member.house);
    }
}

// Notes the houses that an order names.
fn name_ordered(named: &mut Vec<bool>, order: &HouseOrder) {
    match order {
        HouseOrder::Root(others) => name_houses(named, others.houses()),
        HouseOrder::Mkdir(_, _, _, others) => name_houses(named, others.houses()),
        HouseOrder::Repoint(_, _, master, others) => {
            name_house(named, *master);
            name_houses(named, others.list());
        }
        HouseOrder::Epoch(_, _, list) => name_members(named, list.members.list()),
        _ => (),
    }
}

/// The houses without a journal that entries name, in ascending order.
pub(crate) fn other_houses(alloc: Global, logs: &[HouseLog]) -> Result<Vec<HouseNo>, AllocError> {
    let mut named = Vec::new(alloc);
    named.resize(NUMBERS, false)?;
    for log in logs {
        for entry in &log.entries {
            if let LogEntry::Turned(turn) = entry {
                name_ordered(&mut named, &turn.order);
            }
        }
    }
    let mut others = Vec::new(alloc);
    for number in 1..=u8::MAX {
        let house = HouseNo(number);
        let has_log = logs.iter().any(|log| log.house == house);
        if named.get(usize::from(number)) == Some(&true) && !has_log {
            others.push(house)?;
        }
    }
    Ok(others)
}

/// The least node from this number on that no journal has.
pub(crate) fn free_node(logs: &[HouseLog], least: u64) -> Option<Node> {
    'numbers: for number in least..least.saturating_add(NUMBERS as u64) {
        let node = Node::new(number)?;
        if !logs.iter().any(|log| log.node == node) {
            return Some(node);
        }
    }
    None
}
