// Inquiries by what was heard.
ghost use Rattle.std.specs.Prelude.{◌≡◌, ◌≤◌, List, None, IfOk};
ghost use Rattle.resolver.specs.declared.seen.Found.{Found};
ghost use Rattle.resolver.specs.Readers.{Reader, ShowsOnly};
ghost use Rattle.inquire_forms.specs.Inquired.{batches_listed, inquired_answer};
ghost use Rattle.cds_clerk.specs.Agreements.{Agrees};
ghost use Rattle.cds_clerk.specs.Heards.{heard_root};
ghost use Rattle.cds_clerk.specs.Inquirings.{IsAtName, IsEnded, inquiry_answer};
ghost use Rattle.cds_clerk.specs.Searches.{AreAsked, IfClosed, IfLost, IfMisses, IsClosed, IsSearched};
ghost use Rattle.cds_clerk.specs.Unreached.{AreMissed};

use crate::heard::Heard;
use crate::importing::HeardReader;
use crate::reaching::{Reached, closed_unreached};
use crate::searching::{Searched, search};
use crate::walking::{Walked, walk};
use cell_names::FullName;
use inquire_forms::{InquireAnswer, list_elements, list_entry, list_members, look_up};
use ns_inquire::Inquiry;
use resolver::EntryReader;
use resolver::laws::ends_are_seen;
use server_entries::Wanted;
use std::alloc::{AllocError, Global};

/// What an inquiry asks of the entry of a name.
#[derive(Drop)]
pub enum Listing {
    /// The members of a group.
    Members,
    /// The interfaces and the objects of a server.
    Entry,
    /// Elements of a profile.
    Elements(Inquiry),
}

impl Listing {
    // The answer over a reader.
    fn answer<R: EntryReader>(
        &self,
        alloc: Global,
        reader: &R,
        name: &FullName,
    ) -> Result<InquireAnswer, AllocError>
        ensures { IfOk result
            (λ a. inquired_answer a ≡ inquiry_answer (R.tells reader.now) name.now self.now) }
    {
        match self {
            Listing::Members => list_members(alloc, reader, name),
            Listing::Entry => list_entry(alloc, reader, name),
            Listing::Elements(inquiry) => list_elements(alloc, reader, name, inquiry),
        }
    }
}

// The answer to an inquiry of which the walk came to its end.
fn list_at(
    alloc: Global,
    heard: &Heard,
    name: &FullName,
    listing: &Listing,
) -> Result<InquireAnswer, AllocError>
    requires { IsEnded heard.now name.now }
    ensures { IfOk result (λ a. (r : Reader) → Agrees r heard.now
        → inquired_answer a ≡ inquiry_answer r name.now listing.now) }
{
    ends_are_seen();
    listing.answer(alloc, &HeardReader { heard }, name)
}

/// The answer to an inquiry of the entry of a name by what was heard: the members of a group, the
/// interfaces and objects of a server, or elements of a profile. Each reader that agrees with what
/// was heard has that answer, whatever else it tells. What lacks was not heard, and the walk comes
/// to a look-up of it.
pub fn inquire(
    alloc: Global,
    heard: &Heard,
    name: &FullName,
    listing: &Listing,
) -> Result<Searched<InquireAnswer>, AllocError>
    ensures done { IfOk result (λ x. IfClosed x (λ a. (r : Reader) → Agrees r heard.now
        → inquired_answer a ≡ inquiry_answer r name.now listing.now)) }
    ensures asks { IfOk result (λ x. IfMisses x
        (AreAsked heard.now (IsAtName heard.now name.now))) }
    ensures root { IfOk result (λ x. IfLost x (heard_root heard.now.root ≡ None)) }
{
    let walked = walk(alloc, heard, name, true)?;
    match walked {
        Walked::Ended(_end) => Ok(Searched::Closed(list_at(alloc, heard, name, listing)?)),
        Walked::LacksRoot => Ok(Searched::LacksRoot),
        Walked::Lacks(lack) => Ok(Searched::Lacks(lack.alone(alloc)?)),
    }
}

// The answer to a look-up of which the search is closed.
fn look_up_closed(
    alloc: Global,
    heard: &Heard,
    name: &FullName,
    wanted: Wanted,
    most: u16,
) -> Result<InquireAnswer, AllocError>
    requires some { 1 ≤ most }
    requires closed { (entries : List Found)
        × IsClosed heard.now wanted.interface name.now entries }
    ensures { IfOk result (λ a. (r : Reader) (objects : List Found)
        → Agrees r heard.now → ShowsOnly r objects
        → inquired_answer a ≡ batches_listed r objects wanted most name.now) }
{
    look_up(alloc, &HeardReader { heard }, name, wanted, most)
}

/// The bindings of an import in batches of at most so many, by what was heard, and the directories
/// that its search did not reach. Each reader that agrees with what was heard, and shows finitely
/// many objects, has that answer and these directories, whatever else it tells. What lacks was not
/// heard, and the search comes to a name of which the walk needs it; nothing else lacks that can be
/// known so far.
pub fn lookup(
    alloc: Global,
    heard: &Heard,
    name: &FullName,
    wanted: Wanted,
    most: u16,
) -> Result<Searched<Reached<InquireAnswer>>, AllocError>
    requires { 1 ≤ most }
    ensures { IfOk result (IsSearched heard.now wanted.interface name.now
        (λ x. ((r : Reader) (objects : List Found) → Agrees r heard.now → ShowsOnly r objects
        → inquired_answer x.answer ≡ batches_listed r objects wanted most name.now)
        × AreMissed heard.now wanted.interface name.now x.unreached.items)) }
{
    let searched = search(alloc, heard, name, &wanted.interface)?;
    match searched {
        Searched::Closed(entries) => {
            let unreached = closed_unreached(alloc, heard, name, &wanted.interface, &entries)?;
            let answer = look_up_closed(alloc, heard, name, wanted, most)?;
            Ok(Searched::Closed(Reached { answer, unreached }))
        }
        Searched::LacksRoot => Ok(Searched::LacksRoot),
        Searched::Lacks(lacks) => Ok(Searched::Lacks(lacks)),
    }
}
