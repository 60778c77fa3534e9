// Imports over two entries in memory, and the bindings of towers in any order.
ghost use Rattle.std.specs.Prelude.{◌≡◌, ◌≤◌, true, IfOk};
ghost use Rattle.resolver.specs.ListedReaders.{objects_in};
ghost use Rattle.resolver.specs.Nears.{Knows};
ghost use Rattle.resolver.specs.ListedReaderProofs.{listed_shows_only};
ghost use Rattle.service_tests.specs.PairReaders.{entries, pair, value_of};

use attr_sets::Value;
use cds_stamps::{AttrName, DirId, HouseNo, SimpleName};
use cell_names::{ChildPointer, FullName, HouseList, LentName};
use ns_groups::GROUP;
use ns_import::Importer;
use ns_inquire::Lookup;
use resolver::{EntryReader, Found, Near, Seen, resolve_near};
use server_entries::{TOWERS, Wanted, bindings, tower_of_value};
use std::alloc::{AllocError, Global};
use std::cell::Cell;
use std::test::Fail;
use tower_codec::read_uuid;

// The house that has the root directory.
const HOUSE: HouseNo = HouseNo(1);

// A reader of two objects of the root directory, `a` and `b`. Each has this tower and this member
// of a group. Memory may be wanting for what `b` has. It counts how often it is asked where the
// root directory is.
#[derive(Drop)]
struct Pair {
    tower: Value,
    member: Value,
    wanting: bool,
    asked: Cell<u32>,
}

impl EntryReader for Pair {
    ghost tells = { λ r. pair r.tower r.member };

    ghost objects = { λ r. objects_in entries };

    ghost shows_only = { λ r. listed_shows_only true entries };

    fn root(&self, alloc: Global) -> Result<Option<ChildPointer>, AllocError> {
        self.asked.set(self.asked.get().saturating_add(1));
        Ok(Some(ChildPointer {
            dir: DirId::ROOT,
            houses: HouseList::alone(alloc, HOUSE)?,
        }))
    }

    fn lookup(
        &self,
        _alloc: Global,
        at: &ChildPointer,
        name: &SimpleName,
    ) -> Result<Seen, AllocError> {
        let is_here = name.octets() == b"a".as_slice() || name.octets() == b"b".as_slice();
        if at.dir == DirId::ROOT && is_here {
            Ok(Seen::Object(HOUSE))
        } else {
            Ok(Seen::Absent(HOUSE))
        }
    }

    fn values(&self, alloc: Global, at: &Found, attr: &AttrName) -> Result<Vec<Value>, AllocError> {
        if self.wanting && at.name.octets() == b"b".as_slice() {
            return Err(AllocError);
        }
        self.held(alloc, attr)
    }
}

impl Pair {
    // The values of an attribute.
    fn held(&self, alloc: Global, attr: &AttrName) -> Result<Vec<Value>, AllocError>
        ensures { IfOk result
            (λ found. found.items ≡ value_of self.now.tower self.now.member attr.now) }
    {
        let mut found = Vec::new(alloc);
        if attr.octets() == TOWERS {
            found.push(self.tower.copy(alloc)?)?;
        } else if attr.octets() == GROUP {
            found.push(self.member.copy(alloc)?)?;
        }
        Ok(found)
    }
}

// The tower of a server of the interface e1af8308-5d1f-11c9-91a4-08002b14a0fa 3.0 at TCP port 135.
const TOWER: &[u8] = b"\x05\0\
    \x13\0\x0d\x08\x83\xaf\xe1\x1f\x5d\xc9\x11\x91\xa4\x08\0\x2b\x14\xa0\xfa\x03\0\x02\0\0\0\
    \x13\0\x0d\x04\x5d\x88\x8a\xeb\x1c\xc9\x11\x9f\xe8\x08\0\x2b\x10\x48\x60\x02\0\x02\0\0\0\
    \x01\0\x0b\x02\0\0\0\x01\0\x07\x02\0\0\x87\x01\0\x09\x04\0\0\0\0\0";

// What a client wants of it that wants no object.
fn wanted(tower: &Value) -> Result<Wanted, Fail> {
    let tower = tower_of_value(tower).ok().ok_or("a tower")?;
    let nil = b"00000000-0000-0000-0000-000000000000";
    Ok(Wanted {
        interface: tower.interface,
        object: read_uuid(nil).ok_or("a UUID")?,
        tcp: true,
        udp: false,
    })
}

// The two objects.
fn pair_of(alloc: Global, wanting: bool) -> Result<Pair, Fail> {
    Ok(Pair {
        tower: Value::new(alloc, TOWER)?,
        member: Value::new(alloc, b"/.:/b")?,
        wanting,
        asked: Cell::new(0),
    })
}

// How many bindings an import of `a` gives, up to its end or to where memory runs out, and whether
// it is spent then.
fn given(alloc: Global, wanting: bool) -> Result<(usize, bool), Fail> {
    let reader = pair_of(alloc, wanting)?;
    let wanted = wanted(&reader.tower)?;
    let name = FullName::parse(alloc, b"/.:/a")?;
    let mut import = Importer::begin(alloc, &reader, &name, wanted)?;
    let mut ports = Vec::new(alloc);
    for _ in 0..4 {
        if let Ok(Some(binding)) = import.next(alloc) {
            ports.push(binding.port)?;
        }
    }
    Ok((ports.len(), import.is_spent()))
}

#[test]
fn bindings_come_before_memory_is_wanting(rt: HostRuntime) -> Result<(), Fail> {
    // The group of `b` has `b` alone.
    assert_eq!(rt; given(rt.alloc(), false)?, (2, false));
    assert_eq!(rt; given(rt.alloc(), true)?, (1, true));
    Ok(())
}

#[test]
fn a_lookup_gives_batches(rt: HostRuntime) -> Result<(), Fail> {
    let alloc = rt.alloc();
    let reader = pair_of(alloc, false)?;
    let name = FullName::parse(alloc, b"/.:/a")?;
    let mut lookup = Lookup::begin(alloc, &reader, &name, wanted(&reader.tower)?, 1)?;
    for batch in [Some(1), Some(1), None] {
        assert_eq!(rt; lookup.next(alloc)?.map(|bindings| bindings.len()), batch);
    }
    Ok(())
}

// What a look-up of `a` gives in batches of so many bindings, where there is no memory for what `b`
// has: the numbers of the bindings of two batches, or none where memory ran out.
fn batches_before_b(alloc: Global, most: usize) -> Result<[Option<usize>; 2], Fail>
    requires { 1 ≤ most }
{
    let reader = pair_of(alloc, true)?;
    let name = FullName::parse(alloc, b"/.:/a")?;
    let mut lookup = Lookup::begin(alloc, &reader, &name, wanted(&reader.tower)?, most)?;
    let mut sizes = [None; 2];
    for size in &mut sizes {
        if let Ok(Some(batch)) = lookup.next(alloc) {
            *size = Some(batch.len());
        }
    }
    Ok(sizes)
}

#[test]
fn a_lookup_reads_no_entry_before_its_batch_needs_it(rt: HostRuntime) -> Result<(), Fail> {
    // The entry at which it begins is read alone until the first batch is full.
    assert!(rt; batches_before_b(rt.alloc(), 1)? == [Some(1), None]);
    assert!(rt; batches_before_b(rt.alloc(), 2)? == [None, None]);
    Ok(())
}

// The house that shows the object of a name, by the directory that is near.
fn house_near(
    alloc: Global,
    reader: &Pair,
    near: &mut Option<Near>,
    name: &[u8],
) -> Result<HouseNo, Fail>
    requires { Knows (pair reader.now.tower reader.now.member) near.old }
    ensures { Knows (pair reader.now.tower reader.now.member) near.new }
{
    let name = LentName::of(name)?;
    Ok(resolve_near(alloc, reader, near, &name)?.at.house)
}

#[test]
fn the_directory_of_a_name_is_kept_for_the_next(rt: HostRuntime) -> Result<(), Fail> {
    let alloc = rt.alloc();
    let reader = pair_of(alloc, false)?;
    let mut near = None;
    assert_eq!(rt; house_near(alloc, &reader, &mut near, b"/.:/a")?, HOUSE);
    assert_eq!(rt; house_near(alloc, &reader, &mut near, b"/.:/b")?, HOUSE);
    assert_eq!(rt; reader.asked.get(), 1);
    Ok(())
}

// The tower at an address with this last part.
fn tower_at(alloc: Global, last: u8) -> Result<Value, Fail> {
    let mut octets = TOWER.to_vec(alloc)?;
    if let Some(place) = octets.last_mut() {
        *place = last;
    }
    Ok(Value::new(alloc, &octets)?)
}

#[test]
fn bindings_go_by_the_octets_of_towers(rt: HostRuntime) -> Result<(), Fail> {
    let alloc = rt.alloc();
    let towers = [
        tower_at(alloc, 3)?,
        tower_at(alloc, 1)?,
        tower_at(alloc, 2)?,
    ];
    let wanted = wanted(&towers[0])?;
    let found = bindings(alloc, &towers, &[], &wanted)?;
    let mut text = Vec::new(alloc);
    for binding in &found {
        text.extend_from_slice(&binding.print(alloc)?)?;
    }
    assert!(rt;
        text.as_slice()
            == b"ncacn_ip_tcp:0.0.0.1[135]ncacn_ip_tcp:0.0.0.2[135]ncacn_ip_tcp:0.0.0.3[135]".as_slice()
    );
    Ok(())
}
