// Each kind of update: what it adds to a table, joined into another one, and its copy, applied.
// Each kind of what is seen, copied.
use attr_sets::Value;
use cds_messages::Head;
use cds_records::encode_spread;
use cds_stamps::{AttrName, DirId, EpochNo, HouseNo, Node, SimpleName, Stamp};
use cell_names::{ChildPointer, FullName, HouseList};
use directory::{Table, Update};
use purge_rule::Replica;
use resolver::Seen;
use std::alloc::Global;
use std::test::Fail;

fn stamp(time: u64) -> Result<Stamp, Fail> {
    let node = Node::new(10).ok_or("a node")?;
    Ok(Stamp { time, node })
}

fn name(alloc: Global, octets: &[u8]) -> Result<SimpleName, Fail> {
    Ok(SimpleName::parse(alloc, octets)?)
}

fn value(alloc: Global, octet: u8) -> Result<Value, Fail> {
    Ok(Value::new(alloc, &[octet])?)
}

// The directory 2 at the house 1.
fn pointer(alloc: Global) -> Result<ChildPointer, Fail> {
    Ok(ChildPointer {
        dir: DirId(2),
        houses: HouseList::alone(alloc, HouseNo(1))?,
    })
}

// An update of the attribute A of the entry e, of each kind. (These are small functions, since the
// drop of an update is long to prove.)
fn change(alloc: Global, number: u64) -> Result<Update, Fail> {
    let name = name(alloc, b"e")?;
    let attr = AttrName::parse(alloc, b"A")?;
    match number {
        3 => Ok(Update::Add(name, attr, value(alloc, 1)?)),
        4 => Ok(Update::Put(name, attr, value(alloc, 2)?)),
        5 => Ok(Update::Remove(name, attr, value(alloc, 2)?)),
        _ => Ok(Update::Clear(name, attr)),
    }
}

// An update of each kind: of an object e, a link l and a child c.
fn update(alloc: Global, number: u64) -> Result<Update, Fail> {
    match number {
        0 => Ok(Update::Create(name(alloc, b"e")?)),
        1 => Ok(Update::MakeLink(name(alloc, b"l")?, FullName::parse(alloc, b"/.:/e")?)),
        2 => Ok(Update::MakeChild(name(alloc, b"c")?, pointer(alloc)?)),
        7 => Ok(Update::Repoint(name(alloc, b"c")?, HouseList::alone(alloc, HouseNo(2))?)),
        8 => Ok(Update::Delete(name(alloc, b"e")?)),
        _ => change(alloc, number),
    }
}

// Joins what an update adds to a table that accepts it into another one.
fn joins(
    alloc: Global,
    own: &Table,
    other: &mut Table,
    update: &Update,
    stamp: Stamp,
) -> Result<(), Fail> {
    if own.check(update).is_err() {
        return Err("refused".into());
    }
    let fragment = own.fragment(alloc, update, stamp)?;
    Ok(other.join_entry(alloc, &fragment.copy(alloc)?)?)
}

// Applies an update that the table accepts.
fn applies(alloc: Global, own: &mut Table, update: &Update, stamp: Stamp) -> Result<(), Fail> {
    if own.check(update).is_err() {
        return Err("refused".into());
    }
    Ok(own.apply(alloc, update, stamp)?)
}

// Has a table take the copy of an update, and another one what the update adds.
fn both_take(
    alloc: Global,
    own: &mut Table,
    other: &mut Table,
    update: &Update,
    stamp: Stamp,
) -> Result<(), Fail> {
    joins(alloc, own, other, update, stamp)?;
    applies(alloc, own, &update.copy(alloc)?, stamp)
}

fn empty(alloc: Global) -> Replica {
    Replica {
        table: Table::new(alloc),
        all_up_to: None,
    }
}

// The octets of a message with the delta of the replica.
fn spelled(alloc: Global, replica: &Replica) -> Result<Vec<u8>, Fail> {
    let head = Head {
        dir: DirId(1),
        from: HouseNo(1),
        epoch: EpochNo(1),
        floor: 0,
    };
    Ok(encode_spread(alloc, &head, &stamp(1)?, &replica.delta(alloc)?)?)
}

// How much is held after each kind of update: entries, deaths, clears and marks of values.
static HELD: [u64; 9] = [1, 3, 5, 6, 7, 7, 6, 7, 8];

// Has both tables take the update of this number, at the next time.
fn take_next(
    alloc: Global,
    own: &mut Replica,
    other: &mut Replica,
    number: u64,
) -> Result<(), Fail> {
    let update = update(alloc, number)?;
    let stamp = stamp(number.saturating_add(1))?;
    both_take(alloc, &mut own.table, &mut other.table, &update, stamp)
}

#[test]
fn each_fragment_joins_as_its_update_applies(rt: HostRuntime) -> Result<(), Fail> {
    let alloc = rt.alloc();
    let mut own = empty(alloc);
    let mut other = empty(alloc);
    for number in 0..9 {
        take_next(alloc, &mut own, &mut other, number)?;
        let held = HELD[number as usize];
        assert_eq!(rt; (own.held(), other.held()), (held, held), "{number}");
        assert!(rt;
            spelled(alloc, &own)? == spelled(alloc, &other)?,
            "{number}"
        );
    }
    assert_eq!(rt; (own.table.live_entries(), own.latest_time()), (2, 9));
    Ok(())
}

// What is seen, of each kind.
fn seen(alloc: Global, number: u64) -> Result<Seen, Fail> {
    match number {
        0 => Ok(Seen::Unreachable),
        1 => Ok(Seen::Absent(HouseNo(1))),
        2 => Ok(Seen::Object(HouseNo(2))),
        3 => Ok(Seen::Link(HouseNo(3), FullName::parse(alloc, b"/.:/e")?)),
        _ => Ok(Seen::Child(HouseNo(4), pointer(alloc)?)),
    }
}

#[test]
fn what_is_seen_is_copied(rt: HostRuntime) -> Result<(), Fail> {
    let alloc = rt.alloc();
    for number in 0..5 {
        let seen = seen(alloc, number)?;
        let copy = seen.copy(alloc)?;
        assert!(rt;
            format!(in alloc; "{copy:?}")? == format!(in alloc; "{seen:?}")?,
            "{number}"
        );
    }
    Ok(())
}
