// Segments whose last put was stopped, and segments that are damaged.
use house_journal::{Disk, MemDisk};
use house_segments::{DIGEST, LastRecord, Segment, last_record};
use std::alloc::Global;
use std::test::Fail;

// The octets of a disk.
fn octets_of(alloc: Global, disk: &mut MemDisk) -> Result<Vec<u8>, Fail> {
    let Ok(size) = disk.size() else {
        return Err("no size".into());
    };
    let mut octets = vec![in alloc; 0_u8; size as usize]?;
    match disk.read_at(0, &mut octets) {
        Ok(()) => Ok(octets),
        Err(_) => Err("no read".into()),
    }
}

// The octets of a segment of three records: its head, and two more, of 46 and 47 octets with their
// gates. The closed gate follows.
fn octets_of_three(alloc: Global) -> Result<Vec<u8>, Fail> {
    let before = [7; DIGEST];
    let mut head = Vec::from_slice(alloc, b"title")?;
    head.extend_from_slice(&before)?;
    let begun = Segment::begin(alloc, MemDisk::new(alloc), before, &head, b"first");
    let Ok(mut segment) = begun else {
        return Err("no segment".into());
    };
    if segment.put(alloc, b"second").is_err() {
        return Err("no record".into());
    }
    octets_of(alloc, &mut segment.into_disk())
}

// The body of the last record.
fn last_body(octets: &[u8]) -> Option<&[u8]> {
    let LastRecord { body, .. } = last_record(b"title", octets)?;
    Some(body)
}

// Sets the octet at a place, which is counted from the end on: the last one is 1.
fn set(octets: &mut [u8], from_end: usize, octet: u8) -> Result<(), Fail> {
    let Some(at) = octets.len().checked_sub(from_end) else {
        return Err("no such place".into());
    };
    match octets.get_mut(at) {
        Some(place) => *place = octet,
        None => return Err("no such place".into()),
    }
    Ok(())
}

// The places of the gates of the last two records, from the end on.
const LAST_GATE: usize = 48;

const GATE_BEFORE: usize = 94;

// A crash in a put leaves any octet as its gate, or 0 there and any octets after it. So the last
// octet of the file may be 1 although nothing follows.
#[test]
fn a_stopped_put_leaves_a_segment(rt: HostRuntime) -> Result<(), Fail> {
    let octets = octets_of_three(rt.alloc())?;
    let cases: [(u8, u8, Option<&[u8]>); 7] = [
        (1, 0, Some(b"second")),
        (0, 0, Some(b"first")),
        (0, 1, Some(b"first")),
        (0, 255, Some(b"first")),
        (2, 0, Some(b"first")),
        (255, 1, Some(b"first")),
        (1, 1, None),
    ];
    for (gate, end, wanted) in cases {
        let mut left = octets.to_vec(rt.alloc())?;
        set(&mut left, LAST_GATE, gate)?;
        set(&mut left, 1, end)?;
        assert!(rt; last_body(&left) == wanted, "{gate} {end}");
    }
    Ok(())
}

// No crash closes a gate in front of others that are open.
#[test]
fn a_closed_gate_in_front_of_a_record_is_damage(rt: HostRuntime) -> Result<(), Fail> {
    let mut octets = octets_of_three(rt.alloc())?;
    set(&mut octets, GATE_BEFORE, 0)?;
    assert!(rt; last_body(&octets).is_none());
    Ok(())
}
