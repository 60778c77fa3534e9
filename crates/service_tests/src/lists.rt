// Lists and maps that are made and copied whole, as callers outside the program may.
use attr_sets::{AttrCell, CellChange, Value, ValueMap};
use cds_stamps::{AttrName, EpochNo, HouseNo, Member, MemberKind, Members, Node, Stamp};
use cell_script::Octets;
use compact_map::CompactMap;
use directory::AttrMap;
use record_fields::put_cell;
use script_answers::Values;
use std::alloc::{AllocError, Global};
use std::test::Fail;
use tower_codec::TowerWriter;

#[test]
fn lists_take_what_is_pushed(rt: HostRuntime) -> Result<(), Fail> {
    let alloc = rt.alloc();
    let mut octets = Octets::new(alloc);
    octets.push(7)?;
    assert!(rt; octets.list() == [7].as_slice());
    let mut values = Values::new(alloc);
    values.push(Value::new(alloc, b"v")?)?;
    assert!(rt; matches!(values.list(), [value] if value.octets() == b"v".as_slice()));
    Ok(())
}

// A value that is present, one that is absent, and a clear.
fn marked(alloc: Global) -> Result<AttrCell, Fail> {
    let node = Node::new(10).ok_or("a node")?;
    let mut cell = AttrCell::new(alloc);
    cell.clear(Stamp { time: 1, node });
    let (one, two) = (Value::new(alloc, &[1])?, Value::new(alloc, &[2])?);
    cell.change(alloc, &CellChange::Add(&one), Stamp { time: 2, node })?;
    cell.change(alloc, &CellChange::Remove(&two), Stamp { time: 3, node })?;
    Ok(cell)
}

fn spelled(alloc: Global, cell: &AttrCell) -> Result<Vec<u8>, Fail> {
    let mut octets = Vec::new(alloc);
    put_cell(&mut octets, cell)?;
    Ok(octets)
}

fn copied(alloc: Global, values: &ValueMap, cleared: Option<Stamp>) -> Result<AttrCell, Fail> {
    Ok(AttrCell {
        cleared,
        values: values.copy(alloc)?,
    })
}

#[test]
fn marks_and_attributes_are_copied(rt: HostRuntime) -> Result<(), Fail> {
    let alloc = rt.alloc();
    let cell = marked(alloc)?;
    let octets = spelled(alloc, &cell)?;
    let again = copied(alloc, &cell.values, cell.cleared)?;
    assert!(rt; spelled(alloc, &again)? == octets);
    let name = AttrName::parse(alloc, b"A")?;
    let mut attrs = AttrMap::new(alloc);
    attrs.insert(name.copy(alloc)?, cell)?;
    let attrs = attrs.copy(alloc)?;
    assert!(rt; spelled(alloc, attrs.get(&name).ok_or("a cell")?)? == octets);
    Ok(())
}

// So many members, of which the last is the master.
fn members(alloc: Global, count: u8) -> Result<Members, Fail> {
    let mut list = Vec::new(alloc);
    for house in 1..=count {
        list.push(Member {
            house: HouseNo(house),
            since: EpochNo(1),
            kind: if house == count {
                MemberKind::Master
            } else {
                MemberKind::ReadOnly
            },
        })?;
    }
    Ok(Members::new(alloc, &list)?)
}

#[test]
fn members_are_listed(rt: HostRuntime) -> Result<(), Fail> {
    for count in [1, 3, 64] {
        let members = members(rt.alloc(), count)?;
        assert_eq!(rt;
            (members.list().len(), members.master()),
            (usize::from(count), HouseNo(count))
        );
    }
    Ok(())
}

#[test]
fn many_keys_descend(rt: HostRuntime) -> Result<(), Fail> {
    let mut map = CompactMap::new(rt.alloc());
    for key in 0..200_000u32 {
        map.insert(200_000 - key, [0u64; 8])?;
    }
    assert_eq!(rt; map.len(), 200_000);
    Ok(())
}

// A tower of so many floors of five octets.
fn tower_of(alloc: Global, count: u16) -> Result<TowerWriter, AllocError> {
    let mut tower = TowerWriter::new(alloc)?;
    for _ in 0..count {
        tower.push(&[7], &[])?;
    }
    Ok(tower)
}

#[test]
fn a_tower_takes_as_many_floors_as_it_can_count(rt: HostRuntime) -> Result<(), Fail> {
    // (A tower of the program has at most 204.)
    for count in [204, 206, 65_535] {
        let tower = tower_of(rt.alloc(), count)?;
        assert_eq!(rt; tower.octets().len(), 2 + 5 * usize::from(count));
    }
    Ok(())
}
