// The directories that a search did not reach, over what was heard.
use crate::reads::shown;
use crate::searches::{SERVER, rooted, says, wanted};
use cds_clerk::{Answered, Heard, Reached, Root, Searched, import};
use cds_stamps::{DirId, HouseNo, SimpleName};
use cell_names::FullName;
use clerk_lines::Told;
use script_answers::{Answer, ScriptRefusal};
use std::alloc::Global;
use std::test::Fail;

// A house says this of a name in a directory.
fn says_of(
    alloc: Global,
    heard: &mut Heard,
    dir: u32,
    house: u8,
    name: &[u8],
    told: Told,
) -> Result<(), Fail> {
    heard.answers.push(Answered {
        dir: DirId(dir),
        house: HouseNo(house),
        name: SimpleName::parse(alloc, name)?,
        told,
    })?;
    Ok(())
}

// What an import from /.:/g on comes to.
fn search(alloc: Global, heard: &Heard) -> Result<Searched<Reached<Answer>>, Fail> {
    let name = FullName::parse(alloc, b"/.:/g")?;
    Ok(import(alloc, heard, &name, wanted()?)?)
}

// The numbers of the directories that it did not reach, if all was heard.
fn lost(alloc: Global, heard: &Heard) -> Result<Vec<u32>, Fail> {
    match &search(alloc, heard)? {
        Searched::Closed(found) => {
            let mut numbers = Vec::new(alloc);
            for dir in &found.unreached {
                numbers.push(dir.0)?;
            }
            Ok(numbers)
        }
        _ => Err("a closed search".into()),
    }
}

// A group of /.:/c/x, /.:/d/x, /.:/d/y and itself. Directory 9, /.:/c, is at house 1; directory 3,
// /.:/d, is at houses 1 and 2.
fn grouped(alloc: Global) -> Result<Heard, Fail> {
    let mut heard = rooted(alloc)?;
    let group = [
        b"object".as_slice(),
        b"attr RPC_Group",
        b"value 2f2e3a2f632f78",
        b"value 2f2e3a2f642f78",
        b"value 2f2e3a2f642f79",
        b"value 2f2e3a2f67",
    ];
    says(alloc, &mut heard, b"g", shown(alloc, &group)?)?;
    says(alloc, &mut heard, b"c", shown(alloc, &[b"child 9 1"])?)?;
    says(alloc, &mut heard, b"d", shown(alloc, &[b"child 3 1 2"])?)?;
    Ok(heard)
}

#[test]
fn a_search_reaches_what_a_house_answers(rt: HostRuntime) -> Result<(), Fail> {
    let alloc = rt.alloc();
    let mut heard = grouped(alloc)?;
    says_of(alloc, &mut heard, 9, 1, b"x", Told::Absent)?;
    says_of(alloc, &mut heard, 3, 1, b"x", shown(alloc, &SERVER)?)?;
    // One house passes, and the other answers.
    says_of(alloc, &mut heard, 3, 1, b"y", Told::Passed)?;
    says_of(alloc, &mut heard, 3, 2, b"y", Told::Absent)?;
    assert!(rt; lost(alloc, &heard)?.is_empty());
    Ok(())
}

#[test]
fn a_search_says_what_it_did_not_reach(rt: HostRuntime) -> Result<(), Fail> {
    let alloc = rt.alloc();
    let mut heard = grouped(alloc)?;
    says_of(alloc, &mut heard, 9, 1, b"x", Told::Absent)?;
    for name in [b"x", b"y"] {
        says_of(alloc, &mut heard, 3, 1, name, Told::Passed)?;
    }
    // House 2 was not heard.
    match &search(alloc, &heard)? {
        Searched::Lacks(lacks) => {
            assert!(rt; lacks.len() == 2 && lacks[0].house.0 == 2 && lacks[0].dir.0 == 3);
        }
        _ => return Err("questions".into()),
    }
    // Directory 3 is not reached at two names.
    for name in [b"x", b"y"] {
        says_of(alloc, &mut heard, 3, 2, name, Told::Passed)?;
    }
    assert!(rt; lost(alloc, &heard)?.as_slice() == [3].as_slice());
    Ok(())
}

#[test]
fn directories_are_said_in_ascending_order(rt: HostRuntime) -> Result<(), Fail> {
    let alloc = rt.alloc();
    let mut heard = grouped(alloc)?;
    says_of(alloc, &mut heard, 9, 1, b"x", Told::Passed)?;
    for name in [b"x", b"y"] {
        says_of(alloc, &mut heard, 3, 1, name, Told::Passed)?;
        says_of(alloc, &mut heard, 3, 2, name, Told::Passed)?;
    }
    assert!(rt; lost(alloc, &heard)?.as_slice() == [3, 9].as_slice());
    Ok(())
}

#[test]
fn a_search_that_does_not_begin_reaches_for_nothing(rt: HostRuntime) -> Result<(), Fail> {
    let alloc = rt.alloc();
    let mut heard = rooted(alloc)?;
    says(alloc, &mut heard, b"g", Told::Passed)?;
    match &search(alloc, &heard)? {
        Searched::Closed(found) => {
            assert!(rt;
                matches!(
                    &found.answer,
                    Answer::Refused(ScriptRefusal::Unreachable(dir)) if dir.0 == 1
                )
            );
        }
        _ => return Err("a closed search".into()),
    }
    assert!(rt; lost(alloc, &heard)?.is_empty());
    heard.root = Root::Unheard;
    let asks = search(alloc, &heard)?;
    assert!(rt; matches!(&asks, Searched::LacksRoot));
    Ok(())
}
