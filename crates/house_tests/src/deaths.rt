// A large replica whose many deletions go one after the other, by each call that drops some: none
// walks its table.
use crate::houses::second_house;
use crate::purges::{empty, large, object, stamp, steps_to};
use cds_messages::{Body, Head, Message};
use cds_records::{decode, encode_spread};
use cds_stamps::{DirId, EpochNo, HouseNo};
use clearinghouse::{Clearinghouse, DirState, Taken};
use directory::Table;
use purge_rule::Replica;
use std::alloc::Global;
use std::marker::Brand;
use std::sync::ledger::Blank;
use std::test::Fail;

// How many entries live, and how many died, one every second time.
const COUNT: u64 = 100_000;

// The times of the first death and of the last.
const FIRST: u64 = 200_001;

const LAST: u64 = 399_999;

// What is held at first, and when all of these deaths are forgotten: one entry is dead that lives
// else, at a later time.
const WHOLE: u64 = 300_001;

const LEFT: u64 = 100_001;

fn buried(alloc: Global) -> Result<Replica, Fail> {
    let mut own = large(alloc, COUNT, 500_000)?;
    for number in 0..COUNT {
        let name = format!(in alloc; "d{number}")?;
        let birth = 200_000 + 2 * number;
        let marks = object(alloc, name.as_bytes(), birth, Some(stamp(birth + 1)?))?;
        own.take_marks(alloc, &marks)?;
    }
    Ok(own)
}

// The replica that the delta of a message makes of an empty one, as it is read of its octets.
fn sent(alloc: Global, replica: &Replica) -> Result<Replica, Fail> {
    let head = Head {
        dir: DirId::ROOT,
        from: HouseNo(1),
        epoch: EpochNo(1),
        floor: 0,
    };
    let octets = encode_spread(alloc, &head, &stamp(1)?, &replica.delta(alloc)?)?;
    let (message, _) = decode(alloc, &octets)?;
    match &message.body {
        Body::Spread(_, delta) => {
            let mut table = Table::new(alloc);
            table.join_excerpt(alloc, &delta.table)?;
            Ok(Replica {
                table,
                all_up_to: delta.above,
            })
        }
        _ => Err("another message".into()),
    }
}

// No entry, up to this time.
fn up_to(alloc: Global, time: u64) -> Result<Replica, Fail> {
    Ok(Replica {
        table: Table::new(alloc),
        all_up_to: Some(stamp(time)?),
    })
}

#[test]
fn each_death_is_dropped_alone(rt: HostRuntime) -> Result<(), Fail> {
    let alloc = rt.alloc();
    let mut counted = buried(alloc)?;
    let mut advanced = sent(alloc, &counted)?;
    let mut dropped = counted.copy(alloc)?;
    let mut taken = empty(alloc);
    taken.take(alloc, &counted)?;
    for replica in [&counted, &advanced, &dropped, &taken] {
        assert_eq!(rt; replica.held(), WHOLE);
    }
    // Each second call drops an entry and its death, and each is handed one deletion more, which is
    // later.
    let steps = steps_to::<Brand>(&mut counted, FIRST, LAST, Blank::new(1))?;
    assert_eq!(rt; steps, 2 * COUNT + (LAST - FIRST + 1));
    for time in FIRST..=LAST {
        advanced.advance(stamp(time)?);
        dropped.table.drop_up_to(stamp(time)?);
        taken.take(alloc, &up_to(alloc, time)?)?;
    }
    for replica in [&counted, &advanced, &dropped, &taken] {
        assert_eq!(rt; replica.held(), LEFT);
    }
    Ok(())
}

// What a house holds of the root.
fn held_at(house: &Clearinghouse) -> u64 {
    match house.state(DirId::ROOT) {
        Some(DirState::Held(held)) => held.replica.held(),
        _ => 0,
    }
}

// A message of the root to a house that is a member of it.
fn told(alloc: Global, house: &mut Clearinghouse, body: Body) -> Result<Taken, Fail> {
    let message = Message {
        dir: DirId::ROOT,
        from: HouseNo(1),
        epoch: EpochNo(1),
        floor: 0,
        body,
    };
    Ok(house.take(alloc, &message)?.taken)
}

#[test]
fn each_advance_drops_one_death(rt: HostRuntime) -> Result<(), Fail> {
    let alloc = rt.alloc();
    let mut house = second_house(alloc)?;
    let whole = Body::Spread(stamp(1)?, buried(alloc)?.delta(alloc)?);
    assert_eq!(rt; told(alloc, &mut house, whole)?, Taken::Taken);
    assert_eq!(rt; held_at(&house), WHOLE);
    for time in FIRST..=LAST {
        let advance = Body::Advance(stamp(time)?);
        assert_eq!(rt; told(alloc, &mut house, advance)?, Taken::Taken);
    }
    assert_eq!(rt; held_at(&house), LEFT);
    Ok(())
}
