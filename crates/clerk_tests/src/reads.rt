// A read over what was heard.
use attr_sets::Value;
use cds_clerk::{Answered, Answers, Heard, Outcome, Root, read};
use cds_stamps::{AttrName, DirId, HouseNo, SimpleName};
use cell_names::{ChildPointer, FullName, HouseList};
use clerk_lines::{Hearing, Told};
use script_answers::{Answer, ScriptRefusal};
use std::alloc::Global;
use std::test::Fail;

// Nothing was heard but where the root directory is, at houses 1 and 2.
fn rooted(alloc: Global) -> Result<Heard, Fail> {
    Ok(Heard {
        near: Some(HouseNo(2)),
        root: Root::At(ChildPointer {
            dir: DirId::ROOT,
            houses: HouseList::new(alloc, HouseNo(1), &[HouseNo(2)])?,
        }),
        answers: Answers::new(alloc),
    })
}

// A house says this of a name of the root directory.
fn says(alloc: Global, heard: &mut Heard, house: u8, name: &[u8], told: Told) -> Result<(), Fail> {
    heard.answers.push(Answered {
        dir: DirId::ROOT,
        house: HouseNo(house),
        name: SimpleName::parse(alloc, name)?,
        told,
    })?;
    Ok(())
}

/// An entry that leads there by its first line.
pub(crate) fn shown(alloc: Global, lines: &[&[u8]]) -> Result<Told, Fail> {
    let mut hearing = Hearing::Begun;
    for line in lines {
        hearing = hearing.hear(alloc, line)?;
    }
    Ok(hearing.told(b"end"))
}

fn asked(alloc: Global, heard: &Heard) -> Result<Outcome, Fail> {
    let name = FullName::parse(alloc, b"/.:/up")?;
    Ok(read(alloc, heard, &name, &AttrName::parse(alloc, b"A")?)?)
}

#[test]
fn a_read_asks_the_near_house_first(rt: HostRuntime) -> Result<(), Fail> {
    let alloc = rt.alloc();
    let mut heard = rooted(alloc)?;
    match asked(alloc, &heard)? {
        Outcome::Lacks(lack) => assert!(rt; lack.house == HouseNo(2)),
        _ => return Err("a question".into()),
    }
    says(alloc, &mut heard, 2, b"up", Told::Passed)?;
    match asked(alloc, &heard)? {
        Outcome::Lacks(lack) => assert!(rt; lack.house == HouseNo(1)),
        _ => return Err("a question".into()),
    }
    says(alloc, &mut heard, 1, b"up", Told::Passed)?;
    let answer = asked(alloc, &heard)?;
    match &answer {
        Outcome::Said(Answer::Refused(ScriptRefusal::Unreachable(dir))) => assert!(rt; dir.0 == 1),
        _ => return Err("a refusal".into()),
    }
    Ok(())
}

#[test]
fn a_read_follows_links(rt: HostRuntime) -> Result<(), Fail> {
    let alloc = rt.alloc();
    let mut heard = rooted(alloc)?;
    let link = shown(alloc, &[b"link /.:/lpr"])?;
    says(alloc, &mut heard, 2, b"up", link)?;
    match asked(alloc, &heard)? {
        Outcome::Lacks(lack) => assert!(rt; lack.name.octets() == b"lpr".as_slice()),
        _ => return Err("a question".into()),
    }
    let object = shown(alloc, &[b"object", b"attr A", b"value 50"])?;
    says(alloc, &mut heard, 2, b"lpr", object)?;
    let answer = asked(alloc, &heard)?;
    match &answer {
        Outcome::Said(Answer::Values(values)) => {
            assert!(rt; values.list() == [Value::new(alloc, b"P")?].as_slice());
        }
        _ => return Err("values".into()),
    }
    Ok(())
}
