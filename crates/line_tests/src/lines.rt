// Lines of a house: each command once with enough memory, and the longest lines.
use cds_stamps::{EpochNo, HouseNo, Member, MemberKind};
use cell_script::Octets;
use house_lines::{EpochList, HouseLine, HouseOrder, parse_house_line};
use std::alloc::Global;
use std::test::Fail;

// The octets of a line.
const LONGEST: usize = 4080;

// A line of each command.
const LINES: [&[u8]; 22] = [
    b"house 1 00000000000a",
    b"clock 18446744073709551615",
    b"root s2 3",
    b"mkdir 1 sub 2 s3 4",
    b"repoint 1 sub 2 3",
    b"create 1 lpr",
    b"link 1 up /.:/sub/lpr",
    b"delete 1 lpr",
    b"add 1 lpr A 5072",
    b"remove 1 lpr A 5072",
    b"put 1 lpr A 5072",
    b"clear 1 lpr A",
    b"skulk 1",
    b"epoch 1 2 1:1:m 2:2:s - 3",
    b"more 0207",
    b"take 0207",
    b"dump 4294967295",
    b"look 1 lpr A",
    b"show high 1 lpr",
    b"status 1",
    b"directories",
    b"image",
];

// What a line says.
fn said(alloc: Global, line: &[u8]) -> Result<HouseLine, Fail> {
    Ok(parse_house_line(alloc, line)?.ok_or("a command")?)
}

#[test]
fn each_command_is_read(rt: HostRuntime) -> Result<(), Fail> {
    for line in LINES {
        said(rt.alloc(), line)?;
    }
    Ok(())
}

// The list of an epoch.
fn listed(alloc: Global, line: &[u8]) -> Result<EpochList, Fail> {
    match said(alloc, line)? {
        HouseLine::Order(HouseOrder::Epoch(_, _, list)) => Ok(list),
        _ => Err("an epoch".into()),
    }
}

#[test]
fn members_and_houses_that_leave_keep_their_order(rt: HostRuntime) -> Result<(), Fail> {
    let list = listed(rt.alloc(), b"epoch 1 9 7:1:m 2:9:s 2:4:r - 5 4 5")?;
    let member = |house, since, kind| Member {
        house: HouseNo(house),
        since: EpochNo(since),
        kind,
    };
    let members = [
        member(7, 1, MemberKind::Master),
        member(2, 9, MemberKind::Secondary),
        member(2, 4, MemberKind::ReadOnly),
    ];
    assert!(rt; list.members.list() == members.as_slice());
    assert!(rt; list.leaving.list() == [HouseNo(5), HouseNo(4), HouseNo(5)].as_slice());
    Ok(())
}

// Octets in front of those of a message.
fn handed(alloc: Global, line: &[u8]) -> Result<Octets, Fail> {
    match said(alloc, line)? {
        HouseLine::More(octets) => Ok(octets),
        _ => Err("octets".into()),
    }
}

// A line of the most octets: a word, and these octets again and again.
fn longest(alloc: Global, word: &[u8], again: &[u8]) -> Result<Vec<u8>, Fail> {
    let mut line = Vec::from_slice(alloc, word)?;
    'octets: for made in 0..LONGEST {
        line.extend_from_slice(again)?;
    }
    line.truncate(LONGEST);
    Ok(line)
}

#[test]
fn the_longest_lines_are_read(rt: HostRuntime) -> Result<(), Fail> {
    let alloc = rt.alloc();
    let octets = handed(alloc, &longest(alloc, b"more  ", b"a7")?)?;
    assert!(rt; octets.list().len() == 2037);
    let list = listed(alloc, &longest(alloc, b"epoch 1 1 1:1:m -", b" 9")?)?;
    assert!(rt; list.leaving.list().len() == 2031);
    Ok(())
}

#[test]
fn half_an_octet_in_the_longest_line_is_a_fault(rt: HostRuntime) -> Result<(), Fail> {
    let line = longest(rt.alloc(), b"take ", b"a7")?;
    match parse_house_line(rt.alloc(), &line) {
        Err(_) => Ok(()),
        Ok(_) => Err("a fault".into()),
    }
}
