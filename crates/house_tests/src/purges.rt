// The steps of a purge: of a few deletions, and of a million purges of a large replica that drop
// nothing.
ghost use Rattle.std.specs.Prelude.{◌≡◌, ◌<◌};

use attr_sets::{AttrCell, Value};
use cds_stamps::{AttrName, Node, SimpleName, Stamp};
use directory::{AttrMap, EntryCell, Fragment, Kind, Table};
use purge_rule::{Replica, Steps};
use std::alloc::Global;
use std::marker::Brand;
use std::sync::ledger::{Blank, Ledger};
use std::test::Fail;

pub fn stamp(time: u64) -> Result<Stamp, Fail> {
    let node = Node::new(10).ok_or("a node")?;
    Ok(Stamp { time, node })
}

// The marks of an object of this name.
pub fn object(
    alloc: Global,
    name: &[u8],
    birth: u64,
    death: Option<Stamp>,
) -> Result<Fragment, Fail> {
    Ok(Fragment {
        name: SimpleName::parse(alloc, name)?,
        entry: EntryCell {
            birth: stamp(birth)?,
            kind: Kind::Object,
            death,
            attrs: AttrMap::new(alloc),
        },
    })
}

// A value that was removed from A at 4, and a clear of B at 9.
fn deletions(alloc: Global) -> Result<AttrMap, Fail> {
    let mut removed = AttrCell::new(alloc);
    removed.remove(alloc, &Value::new(alloc, &[1])?, stamp(4)?)?;
    let mut cleared = AttrCell::new(alloc);
    cleared.clear(stamp(9)?);
    let mut attrs = AttrMap::new(alloc);
    attrs.insert(AttrName::parse(alloc, b"A")?, removed)?;
    attrs.insert(AttrName::parse(alloc, b"B")?, cleared)?;
    Ok(attrs)
}

pub fn empty(alloc: Global) -> Replica {
    Replica {
        table: Table::new(alloc),
        all_up_to: None,
    }
}

// A replica with an entry that died, and one with a value that was removed and an attribute that
// was cleared.
fn small(alloc: Global) -> Result<Replica, Fail> {
    let mut own = empty(alloc);
    own.take_marks(alloc, &object(alloc, b"e", 1, Some(stamp(2)?))?)?;
    let mut marks = object(alloc, b"f", 3, None)?;
    marks.entry.attrs = deletions(alloc)?;
    own.take_marks(alloc, &marks)?;
    Ok(own)
}

// How many steps it takes to advance to these times, one after the other.
pub fn steps_to<L: Ledger>(
    replica: &mut Replica,
    first: u64,
    last: u64,
    blank: Blank,
) -> Result<u64, Fail>
    requires name { blank.name ≡ L.name }
    requires parts { blank.parts ≡ L.parts }
    requires some { 0 < blank.parts }
{
    let mut steps = Steps::<L>::new(blank);
    for time in first..=last {
        replica.advance_counted(stamp(time)?, &mut steps);
    }
    Ok(steps.count())
}

// A replica of so many births, at the times 1, 2 and so on. The first one is dead.
pub fn large(alloc: Global, count: u64, death: u64) -> Result<Replica, Fail>
    requires { count < 1000000 }
{
    let mut own = empty(alloc);
    for number in 0..count {
        let name = format!(in alloc; "e{number}")?;
        own.take_marks(alloc, &object(alloc, name.as_bytes(), number + 1, None)?)?;
    }
    own.take_marks(alloc, &object(alloc, b"e0", 1, Some(stamp(death)?))?)?;
    Ok(own)
}

#[test]
fn steps_are_deletions_and_what_goes_with_them(rt: HostRuntime) -> Result<(), Fail> {
    let mut own = small(rt.alloc())?;
    assert_eq!(rt; own.held(), 5);
    let steps = steps_to::<Brand>(&mut own, 5, 5, Blank::new(1))?;
    assert_eq!(rt; (steps, own.held()), (4, 2));
    Ok(())
}

#[test]
fn a_million_purges_walk_no_table(rt: HostRuntime) -> Result<(), Fail> {
    let mut own = large(rt.alloc(), 100000, 2000000)?;
    for (first, last, steps, held) in [
        (200001, 1200000, 1000000, 100001),
        (2000000, 2000000, 2, 99999),
    ] {
        let found = steps_to::<Brand>(&mut own, first, last, Blank::new(1))?;
        assert_eq!(rt; (found, own.held()), (steps, held));
    }
    // (A replica is these two and no more.)
    let Replica { table, all_up_to } = &own;
    assert_eq!(rt; (table.len(), *all_up_to), (99999, Some(stamp(2000000)?)));
    Ok(())
}
