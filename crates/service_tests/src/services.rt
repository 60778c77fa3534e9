// Groups and profiles of values in any order, as they are read where a reader keeps no values.
use attr_sets::Value;
use cell_names::FullName;
use ns_groups::{member_of, members};
use ns_profiles::{Element, elements_for};
use std::alloc::Global;
use std::test::Fail;

fn values(alloc: Global, list: &[&[u8]]) -> Result<Vec<Value>, Fail> {
    let mut values = Vec::new(alloc);
    for octets in list {
        values.push(Value::new(alloc, octets)?)?;
    }
    Ok(values)
}

// Names, each after a space.
fn spelled(alloc: Global, names: &[FullName]) -> Result<Vec<u8>, Fail> {
    let mut text = Vec::new(alloc);
    for name in names {
        text.push(b' ')?;
        text.extend_from_slice(&name.print(alloc)?)?;
    }
    Ok(text)
}

// Values of a group, in the order in which they were added.
#[rattlefmt::skip]
static GROUP: [&[u8]; 9] = [
    b"b", b"/.:/b", b"/.:/", b"/.:/a", b"/...", b"/.:/b", b"/.:/d/c", b"/.:", b"/.:/c",
];

#[test]
fn members_ascend_once_each(rt: HostRuntime) -> Result<(), Fail> {
    let alloc = rt.alloc();
    let found = members(alloc, &values(alloc, &GROUP)?)?;
    assert_eq!(rt;
        spelled(alloc, &found)?.as_slice(),
        b" /.: /.:/a /.:/b /.:/c /.:/d/c".as_slice()
    );
    Ok(())
}

#[test]
fn a_value_spells_a_member(rt: HostRuntime) -> Result<(), Fail> {
    let value = Value::new(rt.alloc(), b"/.:/sub/*")?;
    let member = member_of(rt.alloc(), &value)?;
    assert!(rt; member.is_spelled(b"/.:/sub/*"));
    Ok(())
}

// Elements for version 1.2 of an interface at priority 3, for any interface, for 1.3 and for 1.1 at
// 0, a value that is none, and one more for any interface and for 1.2.
#[rattlefmt::skip]
static PROFILE: [&[u8]; 7] = [
    b"\x03AAAAAAAAAAAAAAAA\x00\x01\x00\x02\x00\x05/.:/bnote",
    b"\x08\0\0\0\0\0\0\0\0\0\0\0\0\0\0\0\0\0\0\0\0\x00\x05/.:/d",
    b"\x00AAAAAAAAAAAAAAAA\x00\x01\x00\x03\x00\x05/.:/c",
    b"\x00AAAAAAAAAAAAAAAA\x00\x01\x00\x01\x00\x05/.:/a",
    b"/.:/e",
    b"\x08\0\0\0\0\0\0\0\0\0\0\0\0\0\0\0\0\0\0\0\0\x00\x05/.:/f",
    b"\x03AAAAAAAAAAAAAAAA\x00\x01\x00\x02\x00\x05/.:/a",
];

#[test]
fn searches_go_by_priority(rt: HostRuntime) -> Result<(), Fail> {
    let alloc = rt.alloc();
    let values = values(alloc, &PROFILE)?;
    let [own, default, ..] = values.as_slice() else {
        return Err("no elements".into());
    };
    let (own, default) = (Element::read(alloc, own)?, Element::read(alloc, default)?);
    assert_eq!(rt;
        (own.priority, own.annotation.octets()),
        (3, b"note".as_slice())
    );
    assert_eq!(rt;
        (default.priority, default.annotation.octets()),
        (8, b"".as_slice())
    );
    let found = elements_for(alloc, &values, &own.interface)?;
    assert_eq!(rt;
        spelled(alloc, &found)?.as_slice(),
        b" /.:/c /.:/a /.:/b /.:/d /.:/f".as_slice()
    );
    Ok(())
}
