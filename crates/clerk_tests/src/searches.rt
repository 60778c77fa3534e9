// Imports over what was heard.
use crate::reads::shown;
use cds_clerk::{Answered, Answers, Heard, Lack, Reached, Root, Searched, import};
use cds_stamps::{DirId, HouseNo, SimpleName};
use cell_names::{ChildPointer, FullName, HouseList};
use clerk_lines::Told;
use script_answers::{Answer, ScriptRefusal};
use server_entries::Wanted;
use std::alloc::Global;
use std::test::Fail;
use tower_codec::{Interface, read_uuid};

/// Nothing was heard but where the root directory is, at house 1.
pub(crate) fn rooted(alloc: Global) -> Result<Heard, Fail> {
    Ok(Heard {
        near: None,
        root: Root::At(ChildPointer {
            dir: DirId::ROOT,
            houses: HouseList::alone(alloc, HouseNo(1))?,
        }),
        answers: Answers::new(alloc),
    })
}

/// House 1 says this of a name of the root directory.
pub(crate) fn says(alloc: Global, heard: &mut Heard, name: &[u8], told: Told) -> Result<(), Fail> {
    heard.answers.push(Answered {
        dir: DirId::ROOT,
        house: HouseNo(1),
        name: SimpleName::parse(alloc, name)?,
        told,
    })?;
    Ok(())
}

/// The interface e1af8308-5d1f-11c9-91a4-08002b14a0fa 3.0, over TCP, without an object.
pub(crate) fn wanted() -> Result<Wanted, Fail> {
    let uuid = read_uuid(b"e1af8308-5d1f-11c9-91a4-08002b14a0fa").ok_or("a UUID")?;
    Ok(Wanted {
        interface: Interface {
            uuid,
            major: 3,
            minor: 0,
        },
        object: read_uuid(b"00000000-0000-0000-0000-000000000000").ok_or("a UUID")?,
        tcp: true,
        udp: false,
    })
}

fn imported(alloc: Global, heard: &Heard) -> Result<Searched<Reached<Answer>>, Fail> {
    Ok(import(alloc, heard, &FullName::parse(alloc, b"/.:/g")?, wanted()?)?)
}

/// The answer of a search of which all was heard.
pub(crate) fn answer_in<T>(searched: Searched<Reached<T>>) -> Result<T, Fail> {
    match searched {
        Searched::Closed(
            Reached {
                answer,
                unreached: _,
            },
        ) => Ok(answer),
        _ => Err("a closed search".into()),
    }
}

// The names of which an import asks, each after a space.
fn asked(alloc: Global, heard: &Heard) -> Result<Vec<u8>, Fail> {
    let searched = imported(alloc, heard)?;
    let Searched::Lacks(lacks) = &searched else {
        return Err("questions".into());
    };
    names_of(alloc, lacks)
}

/// The names of questions, each after a space.
pub(crate) fn names_of(alloc: Global, lacks: &[Lack]) -> Result<Vec<u8>, Fail> {
    let mut text = Vec::new(alloc);
    for lack in lacks {
        text.push(b' ')?;
        text.extend_from_slice(lack.name.octets())?;
    }
    Ok(text)
}

/// A group of /.:/a, /.:/b and two names below /.:/d.
pub(crate) const GROUP: [&[u8]; 6] = [
    b"object",
    b"attr RPC_Group",
    b"value 2f2e3a2f61",
    b"value 2f2e3a2f62",
    b"value 2f2e3a2f642f78",
    b"value 2f2e3a2f642f79",
];

/// A server of the wanted interface at TCP port 135 of an address without a host.
pub(crate) const SERVER: [&[u8]; 3] = [
    b"object",
    b"attr CDS_Towers",
    b"value 050013000d0883afe11f5dc91191a408002b14a0fa030002000000\
        13000d045d888aeb1cc9119fe808002b104860020002000000\
        01000b0200000001000702000087010009040000000000",
];

#[test]
fn a_search_asks_for_all_that_lacks_at_once(rt: HostRuntime) -> Result<(), Fail> {
    let alloc = rt.alloc();
    let mut heard = rooted(alloc)?;
    assert_eq!(rt; asked(alloc, &heard)?.as_slice(), b" g".as_slice());
    says(alloc, &mut heard, b"g", shown(alloc, &GROUP)?)?;
    // The last member comes first, and `d` is asked for once.
    assert_eq!(rt; asked(alloc, &heard)?.as_slice(), b" d b a".as_slice());
    says(alloc, &mut heard, b"d", Told::Absent)?;
    says(alloc, &mut heard, b"a", shown(alloc, &SERVER)?)?;
    assert_eq!(rt; asked(alloc, &heard)?.as_slice(), b" b".as_slice());
    says(alloc, &mut heard, b"b", shown(alloc, &SERVER)?)?;
    match &answer_in(imported(alloc, &heard)?)? {
        Answer::Bindings(bindings) => {
            assert!(rt; matches!(bindings.list(), [a, b] if a.port == 135 && b.port == 135));
        }
        _ => return Err("bindings".into()),
    }
    Ok(())
}

#[test]
fn a_search_begins_at_an_object(rt: HostRuntime) -> Result<(), Fail> {
    let alloc = rt.alloc();
    let mut heard = rooted(alloc)?;
    says(alloc, &mut heard, b"g", shown(alloc, &[b"link /.:/h"])?)?;
    says(alloc, &mut heard, b"h", Told::Absent)?;
    let answer = answer_in(imported(alloc, &heard)?)?;
    assert!(rt; matches!(&answer, Answer::Refused(ScriptRefusal::NoSuchName(0))));
    heard.root = Root::Unheard;
    assert!(rt; matches!(&imported(alloc, &heard)?, Searched::LacksRoot));
    Ok(())
}
