// Lines of a clerk, and answers of houses, with enough memory.
use cds_stamps::{AttrName, DirId, EpochNo, HouseNo, SimpleName};
use clerk_lines::{
    ClerkWord, Hearing, Lead, ShownEntry, Told, is_last, push_ask, push_say, push_show,
    read_clerk_line, read_root,
};
use std::alloc::Global;
use std::test::Fail;

#[test]
fn a_clerk_reads_its_lines(rt: HostRuntime) -> Result<(), Fail> {
    let line = read_clerk_line(b"do 7 read low /.:/a A").ok_or("a command")?;
    assert!(rt; line.word == ClerkWord::Do && line.number == 7);
    assert!(rt; line.text == b"read low /.:/a A".as_slice());
    let line = read_clerk_line(b"hear 18446744073709551615 attr A").ok_or("a line")?;
    assert!(rt; line.word == ClerkWord::Hear && line.number == u64::MAX);
    assert!(rt; line.text == b"attr A".as_slice());
    let line = read_clerk_line(b"down 2").ok_or("a house")?;
    assert!(rt; line.word == ClerkWord::Down && line.number == 2);
    for other in [
        b"down 2 3".as_slice(),
        b"hear 2",
        b"do 0 x",
        b"done 1 x",
        b"do",
        b"",
    ] {
        assert!(rt; read_clerk_line(other).is_none());
    }
    Ok(())
}

#[test]
fn a_clerk_writes_its_lines(rt: HostRuntime) -> Result<(), Fail> {
    let alloc = rt.alloc();
    let mut question = Vec::new(alloc);
    push_show(
        &mut question,
        true,
        DirId(2),
        &SimpleName::parse(alloc, b"lpr")?,
    )?;
    let mut text = Vec::new(alloc);
    push_ask(&mut text, 1, 7, HouseNo(255), &question)?;
    push_say(&mut text, 7, b"ok 0")?;
    assert!(rt; text.as_slice() == b"ask 1 7 255 show high 2 lpr\nsay 7 ok 0\n".as_slice());
    Ok(())
}

// What a house says by the lines of its answer.
fn told(alloc: Global, lines: &[&[u8]]) -> Result<Told, Fail> {
    let mut hearing = Hearing::Begun;
    for line in lines {
        if is_last(line) {
            return Ok(hearing.told(line));
        }
        hearing = hearing.hear(alloc, line)?;
    }
    Err("a last line".into())
}

// An entry that a house shows.
fn shown(alloc: Global, lines: &[&[u8]]) -> Result<ShownEntry, Fail> {
    match told(alloc, lines)? {
        Told::Shows(entry) => Ok(entry),
        _ => Err("an entry".into()),
    }
}

#[test]
fn entries_are_heard(rt: HostRuntime) -> Result<(), Fail> {
    let alloc = rt.alloc();
    let lines = [
        b"object".as_slice(),
        b"attr A",
        b"value 01",
        b"value 0100",
        b"attr B",
        b"value ff",
        b"end",
    ];
    let entry = shown(alloc, &lines)?;
    assert!(rt; matches!(&entry.lead, Lead::Object));
    let values = entry
        .attrs
        .values(&AttrName::parse(alloc, b"A")?)
        .ok_or("A")?;
    assert!(rt; values.list().len() == 2);
    assert!(rt; values.list()[1].octets() == b"\x01\x00".as_slice());
    assert!(rt; entry.attrs.values(&AttrName::parse(alloc, b"C")?).is_none());
    Ok(())
}

#[test]
fn links_and_children_are_heard(rt: HostRuntime) -> Result<(), Fail> {
    let alloc = rt.alloc();
    let link = shown(alloc, &[b"link /.:/a/b", b"end"])?;
    match &link.lead {
        Lead::Link(target) => assert!(rt; target.len() == 2),
        _ => return Err("a link".into()),
    }
    let child = shown(alloc, &[b"child 2 1 3 4", b"attr A", b"end"])?;
    match &child.lead {
        Lead::Child(pointer) => assert!(rt; pointer.houses.others().len() == 2),
        _ => return Err("a child".into()),
    }
    Ok(())
}

// Whether lines are no entry.
fn is_nonsense(alloc: Global, lines: &[&[u8]]) -> Result<bool, Fail> {
    let mut hearing = Hearing::Begun;
    for line in lines {
        hearing = hearing.hear(alloc, line)?;
    }
    Ok(matches!(&hearing.told(b"end"), Told::Passed))
}

#[test]
fn other_answers_are_passed_over(rt: HostRuntime) -> Result<(), Fail> {
    let alloc = rt.alloc();
    let answer = told(alloc, &[b"refused NoSuchEntry"])?;
    assert!(rt; matches!(&answer, Told::Absent));
    let other = is_nonsense(alloc, &[b"object", b"object"])?;
    assert!(rt; other);
    let other = is_nonsense(alloc, &[b"object", b"value 00"])?;
    assert!(rt; other);
    let other = is_nonsense(alloc, &[b"object", b"attr A", b"value 02", b"value 02"])?;
    assert!(rt; other);
    let other = is_nonsense(alloc, &[b"object", b"attr A", b"value 02", b"value 01ff"])?;
    assert!(rt; other);
    let other = is_nonsense(alloc, &[b"child 2 1 4 3"])?;
    assert!(rt; other);
    let other = is_nonsense(alloc, &[b"link lpr"])?;
    assert!(rt; other);
    let other = is_nonsense(alloc, &[b"attr A"])?;
    assert!(rt; other);
    let other = is_nonsense(alloc, &[b"object 1"])?;
    assert!(rt; other);
    for line in [
        b"refused NoReplica".as_slice(),
        b"refused NotMaster",
        b"end",
        b"ok",
        b"fault UnknownCommand 1",
    ] {
        let answer = told(alloc, &[line])?;
        assert!(rt; matches!(&answer, Told::Passed));
    }
    Ok(())
}

#[test]
fn the_list_of_the_root_is_read(rt: HostRuntime) -> Result<(), Fail> {
    let alloc = rt.alloc();
    let line = b"ok epoch 3 allupto none skulk none entries 2 members 1:1:r 2:1:m 5:3:s";
    let root = read_root(alloc, line)?.ok_or("a list")?;
    assert!(rt; root.epoch == EpochNo(3));
    assert!(rt; root.houses.master() == HouseNo(2));
    assert!(rt; root.houses.others() == [HouseNo(1), HouseNo(5)].as_slice());
    let none = read_root(alloc, b"refused NoReplica")?;
    assert!(rt; none.is_none());
    let none = read_root(
        alloc,
        b"ok epoch 3 allupto none skulk none entries 2 members 1:1:r",
    )?;
    assert!(rt; none.is_none());
    Ok(())
}
