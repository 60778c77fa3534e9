// Inquiries where memory is ample.
use attr_sets::Value;
use ns_inquire::{Inquiry, elements, interfaces, objects};
use server_entries::tower_of_value;
use std::alloc::Global;
use std::test::Fail;

// A server of the interface e1af8308-5d1f-11c9-91a4-08002b14a0fa 3.0 at TCP port 135 of an address
// with this last part.
fn tower_at(alloc: Global, last: u8) -> Result<Value, Fail> {
    let mut octets = b"\x05\0\
        \x13\0\x0d\x08\x83\xaf\xe1\x1f\x5d\xc9\x11\x91\xa4\x08\0\x2b\x14\xa0\xfa\x03\0\x02\0\0\0\
        \x13\0\x0d\x04\x5d\x88\x8a\xeb\x1c\xc9\x11\x9f\xe8\x08\0\x2b\x10\x48\x60\x02\0\x02\0\0\0\
        \x01\0\x0b\x02\0\0\0\x01\0\x07\x02\0\0\x87\x01\0\x09\x04\0\0\0\0\0"
        .to_vec(alloc)?;
    if let Some(place) = octets.last_mut() {
        *place = last;
    }
    Ok(Value::new(alloc, &octets)?)
}

#[test]
fn a_server_has_interfaces_and_objects(rt: HostRuntime) -> Result<(), Fail> {
    let alloc = rt.alloc();
    let object = b"0123456789abcdef";
    let values = [
        Value::new(alloc, object)?,
        tower_at(alloc, 2)?,
        tower_at(alloc, 1)?,
    ];
    let interface = tower_of_value(&values[1]).ok().ok_or("a tower")?.interface;
    assert!(rt; interfaces(alloc, &values)?.as_slice() == [interface].as_slice());
    assert!(rt;
        matches!(objects(alloc, &values)?.as_slice(), [found] if found.as_bytes() == object)
    );
    Ok(())
}

#[test]
fn a_profile_has_elements(rt: HostRuntime) -> Result<(), Fail> {
    let alloc = rt.alloc();
    let values = [
        Value::new(
            alloc,
            b"\x08\0\0\0\0\0\0\0\0\0\0\0\0\0\0\0\0\0\0\0\0\x00\x05/.:/d",
        )?,
        Value::new(
            alloc,
            b"\x03AAAAAAAAAAAAAAAA\x00\x01\x00\x02\x00\x05/.:/bnote",
        )?,
    ];
    let found = elements(alloc, &values, &Inquiry::AllElements)?;
    assert!(rt;
        matches!(found.as_slice(), [own, default] if own.priority == 3 && default.is_default())
    );
    Ok(())
}
