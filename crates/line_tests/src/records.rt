// Records are written and read.
use house_entries::{body_octets, head_octets, read_body};
use std::test::Fail;

#[test]
fn a_record_is_written_and_read(rt: HostRuntime) -> Result<(), Fail> {
    let octets = body_octets(rt.alloc(), 7, 258, b"image\nok\n", Some(b"\x02\x01"))?;
    let text = b"\0\0\0\0\0\0\0\x07\0\0\0\0\0\0\x01\x02\x01\0\0\0\x09image\nok\n\x02\x01";
    assert!(rt; octets.as_slice() == text.as_slice());
    let body = read_body(&octets).ok_or("a body")?;
    assert!(rt; (body.number, body.clock) == (7, 258));
    assert!(rt; body.text == b"image\nok\n".as_slice());
    assert!(rt; body.image == Some(b"\x02\x01".as_slice()));
    Ok(())
}

#[test]
fn a_record_without_an_image_ends_in_its_text(rt: HostRuntime) -> Result<(), Fail> {
    let mut octets = body_octets(rt.alloc(), 0, 0, b"new\n", None)?;
    assert!(rt;
        octets.as_slice() == b"\0\0\0\0\0\0\0\0\0\0\0\0\0\0\0\0\0\0\0\0\x04new\n".as_slice()
    );
    let body = read_body(&octets).ok_or("a body")?;
    assert!(rt; body.image.is_none());
    octets.push(0)?;
    assert!(rt; read_body(&octets).is_none());
    Ok(())
}

#[test]
fn the_head_of_a_segment_names_it(rt: HostRuntime) -> Result<(), Fail> {
    let octets = head_octets(rt.alloc(), 12, b"\x01\x02")?;
    assert!(rt; octets.as_slice() == b"cdshouse journal 2 12\n\x01\x02".as_slice());
    Ok(())
}
