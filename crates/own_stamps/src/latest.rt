// The greatest stamp of one node in a message.
ghost use Rattle.std.specs.Prelude.{◌≡◌};
ghost use Rattle.purge_rule.specs.Latest.{greatest_of};
ghost use Rattle.own_stamps.specs.OwnStamps as own;

use attr_sets::AttrCell;
use cds_messages::{Body, Message};
use cds_stamps::{Node, SimpleName, Stamp};
use directory::EntryCell;
use purge_rule::{Delta, Replica};
use std::collections::btree_map::Iter;

/// The greatest stamp of this node that a message carries, if it is later than the floor.
pub fn later_own(node: Node, floor: u64, message: &Message) -> Option<Stamp>
    ensures { result ≡ own.later_own node floor message.now }
{
    let time = own_in_body(node, &message.body);
    if floor < time {
        Some(Stamp { time, node })
    } else {
        None
    }
}

/// The greatest time of a stamp of this node that a message carries; 0 if it carries none.
fn own_in_body(node: Node, body: &Body) -> u64
    ensures { result ≡ own.own_in_body node body.now }
{
    match body {
        Body::Update(fragment) => own_in_entry(node, &fragment.entry),
        Body::Gather(t) | Body::SpreadAck(t) | Body::Advance(t) => own_time(node, *t),
        Body::Gathered(t, delta) | Body::Spread(t, delta) => {
            own_time(node, *t).max(own_in_delta(node, delta))
        }
        Body::Join(_, replica) => own_in_replica(node, replica),
        Body::Leave => 0,
    }
}

/// In a replica: in its table, and its AllUpTo.
fn own_in_replica(node: Node, replica: &Replica) -> u64
    ensures { result ≡ own.own_in_replica node replica.now }
{
    own_in(node, replica.table.iter()).max(own_time_of(node, replica.all_up_to))
}

/// In a delta: in its table, and `above`.
fn own_in_delta(node: Node, delta: &Delta) -> u64
    ensures { result ≡ own.own_in_delta node delta.now }
{
    own_in(node, delta.table.iter()).max(own_time_of(node, delta.above))
}

/// In these entries.
fn own_in(node: Node, entries: Iter<'_, SimpleName, EntryCell>) -> u64
    ensures { result ≡ greatest_of (λ e. own.own_in_entry node e.1) entries.entry }
{
    let mut time = 0;
    for (_, entry) in entries {
        time = time.max(own_in_entry(node, entry));
    }
    time
}

/// In an entry: its birth, its death, and its attributes.
fn own_in_entry(node: Node, entry: &EntryCell) -> u64
    ensures { result ≡ own.own_in_entry node entry.now }
{
    let mut time = own_time(node, entry.birth).max(own_time_of(node, entry.death));
    for (_, cell) in entry.attrs.iter() {
        time = time.max(own_in_cell(node, cell));
    }
    time
}

/// In an attribute: its clear, and the marks of its values.
fn own_in_cell(node: Node, cell: &AttrCell) -> u64
    ensures { result ≡ own.own_in_cell node cell.now }
{
    let mut time = own_time_of(node, cell.cleared);
    for (_, mark) in cell.values.iter() {
        time = time.max(own_time(node, mark.stamp));
    }
    time
}

/// The time of a stamp that may be missing.
fn own_time_of(node: Node, stamp: Option<Stamp>) -> u64
    ensures { result ≡ own.own_time_of node stamp }
{
    match stamp {
        Some(stamp) => own_time(node, stamp),
        None => 0,
    }
}

/// The time of a stamp, if it is of this node, else 0.
fn own_time(node: Node, stamp: Stamp) -> u64
    ensures { result ≡ own.own_time node stamp }
{
    if stamp.node == node { stamp.time } else { 0 }
}
