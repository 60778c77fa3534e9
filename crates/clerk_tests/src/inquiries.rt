// Inquiries and look-ups over what was heard.
ghost use Rattle.std.specs.Prelude.{◌≤◌};

use crate::reads::shown;
use crate::searches::{GROUP, SERVER, answer_in, names_of, rooted, says, wanted};
use cds_clerk::{Heard, Listing, Root, Searched, inquire, lookup};
use cell_names::FullName;
use inquire_forms::InquireAnswer;
use ns_inquire::{Inquiry, Version};
use script_answers::{Answer, ScriptRefusal};
use std::alloc::Global;
use std::test::Fail;
use tower_codec::{Interface, read_uuid};

// What an inquiry of /.:/g comes to.
fn inquired(
    alloc: Global,
    heard: &Heard,
    listing: &Listing,
) -> Result<Searched<InquireAnswer>, Fail> {
    Ok(inquire(alloc, heard, &FullName::parse(alloc, b"/.:/g")?, listing)?)
}

// Its answer, of which all was heard.
fn answered(alloc: Global, heard: &Heard, listing: &Listing) -> Result<InquireAnswer, Fail> {
    match inquired(alloc, heard, listing)? {
        Searched::Closed(answer) => Ok(answer),
        _ => Err("an answer".into()),
    }
}

// /.:/g is this entry.
fn entry(alloc: Global, lines: &[&[u8]]) -> Result<Heard, Fail> {
    let mut heard = rooted(alloc)?;
    says(alloc, &mut heard, b"g", shown(alloc, lines)?)?;
    Ok(heard)
}

#[test]
fn a_group_lists_its_members(rt: HostRuntime) -> Result<(), Fail> {
    let alloc = rt.alloc();
    let heard = entry(alloc, &GROUP)?;
    match &answered(alloc, &heard, &Listing::Members)? {
        InquireAnswer::Members(list) => {
            assert!(rt; list.len() == 4);
            assert!(rt; list[0].is_spelled(b"/.:/a") && list[1].is_spelled(b"/.:/b"));
            assert!(rt; list[2].is_spelled(b"/.:/d/x") && list[3].is_spelled(b"/.:/d/y"));
        }
        _ => return Err("members".into()),
    }
    Ok(())
}

#[test]
fn a_server_lists_its_interfaces_and_objects(rt: HostRuntime) -> Result<(), Fail> {
    let alloc = rt.alloc();
    let lines = [
        SERVER[0],
        SERVER[1],
        SERVER[2],
        b"attr RPC_ObjectUUIDs",
        b"value 30313233343536373839616263646566",
    ];
    let heard = entry(alloc, &lines)?;
    match &answered(alloc, &heard, &Listing::Entry)? {
        InquireAnswer::Entries(interfaces, objects) => {
            assert!(rt; interfaces.as_slice() == [wanted()?.interface].as_slice());
            assert!(rt;
                matches!(
                    objects.as_slice(),
                    [object] if object.as_bytes() == b"0123456789abcdef"
                )
            );
        }
        _ => return Err("a server".into()),
    }
    Ok(())
}

// A profile: at priority 3 the interface 41414141-4141-4141-4141-414141414141 1.2 at /.:/b, and the
// default element /.:/d.
const PROFILE: [&[u8]; 4] = [
    b"object",
    b"attr RPC_Profile",
    b"value 0341414141414141414141414141414141000100020005\
        2f2e3a2f62",
    b"value 0800000000000000000000000000000000000000000005\
        2f2e3a2f64",
];

// The interface of the profile, in a version.
fn offered(major: u16, minor: u16) -> Result<Interface, Fail> {
    let uuid = read_uuid(b"41414141-4141-4141-4141-414141414141").ok_or("a UUID")?;
    Ok(Interface { uuid, major, minor })
}

// The priorities of the elements that an inquiry lists.
fn elements(alloc: Global, inquiry: Inquiry) -> Result<Vec<u8>, Fail> {
    let heard = entry(alloc, &PROFILE)?;
    match &answered(alloc, &heard, &Listing::Elements(inquiry))? {
        InquireAnswer::Elements(list) => {
            let mut priorities = Vec::new(alloc);
            for element in list {
                priorities.push(element.priority)?;
            }
            Ok(priorities)
        }
        _ => Err("elements".into()),
    }
}

#[test]
fn a_profile_lists_each_kind_of_elements(rt: HostRuntime) -> Result<(), Fail> {
    let alloc = rt.alloc();
    let (b, d) = (b"/.:/b", b"/.:/d");
    let all = elements(alloc, Inquiry::AllElements)?;
    assert!(rt; all.as_slice() == [3, 8].as_slice());
    let default = elements(alloc, Inquiry::Default)?;
    assert!(rt; default.as_slice() == [8].as_slice());
    let by_interface = elements(
        alloc,
        Inquiry::ByInterface(offered(1, 1)?, Version::Compatible),
    )?;
    assert!(rt; by_interface.as_slice() == [3].as_slice());
    let other = elements(alloc, Inquiry::ByInterface(offered(1, 1)?, Version::Exact))?;
    assert!(rt; other.is_empty());
    let by_member = elements(alloc, Inquiry::ByMember(FullName::parse(alloc, d)?))?;
    assert!(rt; by_member.as_slice() == [8].as_slice());
    let name = FullName::parse(alloc, b)?;
    let by_both = elements(alloc, Inquiry::ByBoth(offered(1, 2)?, Version::Exact, name))?;
    assert!(rt; by_both.as_slice() == [3].as_slice());
    let name = FullName::parse(alloc, d)?;
    let other = elements(alloc, Inquiry::ByBoth(offered(1, 2)?, Version::Exact, name))?;
    assert!(rt; other.is_empty());
    Ok(())
}

#[test]
fn an_inquiry_asks_what_lacks(rt: HostRuntime) -> Result<(), Fail> {
    let alloc = rt.alloc();
    let mut heard = rooted(alloc)?;
    let asks = inquired(alloc, &heard, &Listing::Entry)?;
    match &asks {
        Searched::Lacks(lacks) => {
            assert!(rt; names_of(alloc, lacks)?.as_slice() == b" g".as_slice());
        }
        _ => return Err("a question".into()),
    }
    says(alloc, &mut heard, b"g", shown(alloc, &[b"child 2 1"])?)?;
    let answer = answered(alloc, &heard, &Listing::Members)?;
    assert!(rt;
        matches!(
            &answer,
            InquireAnswer::Plain(Answer::Refused(ScriptRefusal::NotObject))
        )
    );
    heard.root = Root::Nowhere;
    let answer = answered(alloc, &heard, &Listing::Members)?;
    assert!(rt;
        matches!(
            &answer,
            InquireAnswer::Plain(Answer::Refused(ScriptRefusal::Unreachable(dir))) if dir.0 == 1
        )
    );
    heard.root = Root::Unheard;
    let asks = inquired(alloc, &heard, &Listing::Entry)?;
    assert!(rt; matches!(&asks, Searched::LacksRoot));
    Ok(())
}

// How many bindings each batch has of a look-up of /.:/g, at most so many.
fn batches(alloc: Global, heard: &Heard, most: u16) -> Result<Vec<usize>, Fail>
    requires { 1 ≤ most }
{
    let name = FullName::parse(alloc, b"/.:/g")?;
    match &answer_in(lookup(alloc, heard, &name, wanted()?, most)?)? {
        InquireAnswer::Batches(list) => {
            let mut counts = Vec::new(alloc);
            for batch in list {
                counts.push(batch.len())?;
            }
            Ok(counts)
        }
        _ => Err("batches".into()),
    }
}

#[test]
fn a_look_up_cuts_bindings_into_batches(rt: HostRuntime) -> Result<(), Fail> {
    let alloc = rt.alloc();
    let mut heard = entry(alloc, &GROUP)?;
    let name = FullName::parse(alloc, b"/.:/g")?;
    let asks = lookup(alloc, &heard, &name, wanted()?, 1)?;
    match &asks {
        Searched::Lacks(lacks) => {
            assert!(rt; names_of(alloc, lacks)?.as_slice() == b" d b a".as_slice());
        }
        _ => return Err("questions".into()),
    }
    for server in [b"a", b"b"] {
        says(alloc, &mut heard, server, shown(alloc, &SERVER)?)?;
    }
    says(alloc, &mut heard, b"d", shown(alloc, &[b"link /.:/a"])?)?;
    assert!(rt; batches(alloc, &heard, 1)?.as_slice() == [1, 1].as_slice());
    assert!(rt; batches(alloc, &heard, 2)?.as_slice() == [2].as_slice());
    assert!(rt; batches(alloc, &heard, 65535)?.as_slice() == [2].as_slice());
    heard.root = Root::Unheard;
    let asks = lookup(alloc, &heard, &name, wanted()?, 1)?;
    assert!(rt; matches!(&asks, Searched::LacksRoot));
    Ok(())
}

#[test]
fn a_look_up_that_does_not_begin_says_why(rt: HostRuntime) -> Result<(), Fail> {
    let alloc = rt.alloc();
    let heard = entry(alloc, &[b"child 2 1"])?;
    let name = FullName::parse(alloc, b"/.:/g")?;
    let answer = answer_in(lookup(alloc, &heard, &name, wanted()?, 1)?)?;
    assert!(rt;
        matches!(
            &answer,
            InquireAnswer::Plain(Answer::Refused(ScriptRefusal::NotObject))
        )
    );
    Ok(())
}
