// How a house goes on from the records of a segment: it does again what they say.
ghost use Rattle.std.specs.Prelude.{◌≡◌, ◌≢◌, [], ◌∷◌, ◌++◌, List, ℕ, codes, true, is_some, IfNone, IfOk, IfSome, MatchOption, OnSome};
ghost use Rattle.std.specs.Bool.{OnFalse, OnTrue};
ghost use Rattle.clearinghouse.specs.HouseImages.{with_skulks};
ghost use Rattle.house_turns.specs.Openings as openings;
ghost use Rattle.house_turns.specs.Openings.{Differs, EndsLife, MayEnd, Redoes, Resumes, house_with, new_house};
ghost use Rattle.house_turns.specs.PrivateTurns.{ReadsFirst, ResumesBy, StartsOf};
ghost use Rattle.house_turns.specs.declared.house.House.{House};

use crate::again::cut_at;
use crate::house::House;
use crate::octets::OctetBuffer;
use crate::running::{RunningLines, read_skulks};
use cds_stamps::AllocOr;
use clearinghouse::{Clearinghouse, RunningSkulk};
use house_entries::{Body, read_body};
use house_serving::Responder;
use script_answers::push_number;
use std::alloc::{AllocError, Global};

// The clearinghouse that starts of an image; none, if none does.
fn started(alloc: Global, image: &[u8]) -> Result<Option<Clearinghouse>, AllocError>
    ensures { IfOk result (StartsOf image.now) }
{
    match Clearinghouse::start(alloc, image) {
        Ok(home) => Ok(Some(home)),
        Err(AllocOr::Fault(_)) => Ok(None),
        Err(AllocOr::OutOfMemory) => Err(AllocError),
    }
}

// The house of the first record of a folder that has none.
fn resume_new(alloc: Global, body: &Body<'_>) -> Option<House>
    ensures house { IfSome result (λ h. h ≡ new_house) }
    ensures number { OnSome result (body.now.number ≡ 0) }
    ensures text { OnSome result (body.now.text.now ≡ codes "new" ++ 10 ∷ []) }
    ensures none { IfNone result
        (body.now.number ≡ 0 → body.now.text.now ≢ codes "new" ++ 10 ∷ []) }
{
    if body.number == 0 && body.text == b"new\n".as_slice() {
        Some(House::new(alloc))
    } else {
        None
    }
}

/// The line of the first record of the next segment, after so many entries.
pub(crate) fn segment_line(alloc: Global, entry: u64) -> Result<Vec<u8>, AllocError>
    ensures { IfOk result (λ v. v.items ≡ openings.segment_line entry) }
{
    let mut line = Vec::from_slice(alloc, b"segment ")?;
    push_number(&mut line, entry)?;
    line.push(b'\n')?;
    Ok(line)
}

// What comes after the front of octets, if they begin so.
fn behind<'a>(octets: &'a [u8], front: &[u8]) -> Option<&'a [u8]>
    ensures { MatchOption result ((rest : List ℕ) → octets.now ≢ front.now ++ rest)
        (λ rest. octets.now ≡ front.now ++ rest.now) }
{
    octets.strip_prefix(front)
}

// The skulks and the last turn of which the text of a first record says, after so many entries;
// none, if it is none.
fn read_first<'a>(
    alloc: Global,
    entry: u64,
    text: &'a [u8],
) -> Result<Option<RunningLines<'a>>, AllocError>
    ensures { IfOk result (ReadsFirst entry text.now) }
{
    if let Some(last) = behind(text, b"start\n") {
        return Ok(Some(RunningLines {
            skulks: Vec::new(alloc),
            rest: last,
        }));
    }
    let line = segment_line(alloc, entry)?;
    match behind(text, &line) {
        Some(rest) => read_skulks(alloc, rest),
        None => Ok(None),
    }
}

// Lets skulks run on.
fn run_on(home: &mut Clearinghouse, skulks: &[RunningSkulk])
    ensures { home.new ≡ with_skulks skulks.now home.old }
{
    for skulk in skulks {
        home.run_on(*skulk);
    }
}

// The house of the first record of a segment, whose image this is.
fn resume_made(alloc: Global, body: &Body<'_>, image: &[u8]) -> Result<Option<House>, AllocError>
    ensures { IfOk result
        (ResumesBy body.now.number body.now.clock body.now.text.now image.now) }
{
    let Some(first) = read_first(alloc, body.number, body.text)? else {
        return Ok(None);
    };
    let Some(mut home) = started(alloc, image)? else {
        return Ok(None);
    };
    run_on(&mut home, &first.skulks);
    let last = OctetBuffer::of(Vec::from_slice(alloc, first.rest)?);
    Ok(Some(House::with(alloc, home, body.number, body.clock, last)))
}

/// The house at the first record of a segment; none, if no house resumes with it.
pub fn resume(alloc: Global, body: &[u8]) -> Result<Option<House>, AllocError>
    ensures some { IfOk result (λ o. IfSome o (Resumes body.now)) }
    ensures none { IfOk result (λ o. IfNone o ((h : House) → ¬ Resumes body.now h)) }
{
    let Some(body) = read_body(body) else {
        return Ok(None);
    };
    match body.image {
        Some(image) => resume_made(alloc, &body, image),
        None => Ok(resume_new(alloc, &body)),
    }
}

impl House {
    // A house with this clearinghouse, after so many entries, and with this last turn.
    fn with(alloc: Global, home: Clearinghouse, entry: u64, clock: u64, last: OctetBuffer) -> House
        ensures { result ≡ house_with home entry clock last }
    {
        let node = home.node();
        House {
            home: Some(home),
            node,
            clock,
            entry,
            last,
            more: OctetBuffer::new(alloc),
        }
    }

    /// Does again what the record of a turn says. Whether that gives the same record.
    pub fn redo(&mut self, alloc: Global, body: &[u8]) -> Result<bool, AllocError>
        ensures same { IfOk result (λ b. OnTrue b (Redoes self.old body.now self.new)) }
        ensures differs { IfOk result (λ b. OnFalse b (Differs self.old body.now)) }
    {
        let Some(said) = read_body(body) else {
            return Ok(false);
        };
        let (line, _) = cut_at(said.text, b'\n');
        self.clock = said.clock;
        self.more.clear();
        let reply = self.respond(alloc, 0, line)?;
        match &reply.record {
            Some(record) => Ok(record.as_slice() == body),
            None => Ok(false),
        }
    }

    /// The house after a crash. None comes only of one that is not lawful.
    pub fn end(self, alloc: Global) -> Result<Option<House>, AllocError>
        ensures some { IfOk result (λ o. IfSome o (EndsLife self)) }
        ensures lawful { MayEnd self.home → IfOk result (λ o. is_some o ≡ true) }
    {
        let House {
            home,
            entry,
            last,
            ..
        } = self;
        let Some(home) = home else {
            return Ok(Some(House::new(alloc)));
        };
        let image = home.image(alloc)?;
        match started(alloc, &image)? {
            Some(home) => Ok(Some(House::with(alloc, home, entry, 0, last))),
            None => Ok(None),
        }
    }
}
