// The journal of a house, read segment by segment.
ghost use Rattle.std.specs.Prelude.{◌≡◌, ◌≢◌, ◌⊎◌, ◌<◌, ◌+◌, ◌^◌, ◌++◌, ◌∷◌, [], ℕ, List, false, length, Ok, Some, None, All, replicate, IfErr, IfNone, IfOk, IfSome, OnOk, MatchOption, codes, decimal, is_none, option_copied};
ghost use Rattle.std.specs.Bool.{Decides, OnFalse, OnTrue};
ghost use Rattle.cell_script.specs.Words.{words_of};
ghost use Rattle.house_entries.specs.Bodies.{IsBody, head_of};
ghost use Rattle.house_lines.specs.LineRows.{said_in};
ghost use Rattle.house_lines.specs.declared.line.HouseLine.{HouseLine as HouseLine'};
ghost use Rattle.house_lines.specs.declared.line.HouseLine.TheVariants as asks;
ghost use Rattle.house_segments.specs.Chains.{digest_after, sealed};
ghost use Rattle.house_logs.specs.Faults.{IsFaultOf, IsOfRecord, IsOtherHead};
ghost use Rattle.house_logs.specs.Logs.{IsJournalOf, IsNew};
ghost use Rattle.house_logs.specs.declared.log.LoggedTurn.{LoggedTurn as LoggedTurn'};
ghost use Rattle.house_logs.specs.declared.log.Making.{Making as Making'};
ghost use Rattle.house_logs.specs.declared.reader.LogReader.{LogReader as LogReader'};
ghost use Rattle.house_logs.specs.PrivateReads.{CanFollow, CanGoOn, CanMake, CanStart, CanTurn, IsAfterHead, IsBare, IsDue, IsMadeBy, IsReadOn, IsTurnBy, IsTurnText, KeepsHead, MakesHouse, ReadsChain, StopsAt, known_in};
ghost use Rattle.house_logs.specs.Reads.{HasRead, IfFault, ReadsFront, ReadsOn, told_of};
ghost use Rattle.house_logs.specs.Records.{CanBe, Shows};

use crate::fault::LogFault;
use crate::log::{HouseLog, LogEntry, LoggedTurn, Making};
use crate::text::{TurnText, is_after_running, turn_in, without};
use cds_stamps::AllocOr;
use cell_script::Octets;
use house_entries::{Body, head_octets, read_body};
use house_lines::{HouseLine, HouseOrder, parse_house_line};
use house_segments::{DIGEST, first_record, last_record, unsealed};
use script_answers::push_number;
use std::alloc::{AllocError, Global};

/// The journal of a house as far as it was read: how many segments, and the digest of the last
/// record; who the house is, if it was made, the image with which it was, and its entries after
/// that; the number and the clock of the last entry, and the text of the last turn.
#[derive(Drop)]
pub struct LogReader {
    segments: u64,
    digest: [u8; DIGEST],
    made: Option<Making>,
    image: Option<Octets>,
    entries: Vec<LogEntry>,
    number: u64,
    clock: u64,
    turn: Vec<u8>,
}

// A copy of octets.
fn octets_of(alloc: Global, octets: &[u8]) -> Result<Octets, AllocError>
    ensures { IfOk result (λ o. o ≡ octets.now) }
{
    Ok(Octets::of(Vec::from_slice(alloc, octets)?))
}

// Whether no image is known, or this one.
fn can_be(known: Option<&Octets>, image: &[u8]) -> bool
    ensures { Decides result (CanBe (option_copied known.entry) image.now) }
{
    match known {
        Some(other) => other.list() == image,
        None => true,
    }
}

// What a line says, if it says something.
fn said_by(alloc: Global, line: &[u8]) -> Result<Option<HouseLine>, AllocError>
    ensures { IfOk result (λ o. MatchOption o
        ((says : HouseLine') → said_in (words_of line.now) ≢ Ok (Some says))
        (λ says. said_in (words_of line.now) ≡ Ok (Some says))) }
{
    match parse_house_line(alloc, line) {
        Ok(says) => Ok(says),
        Err(AllocOr::Fault(_)) => Ok(None),
        Err(AllocOr::OutOfMemory) => Err(AllocError),
    }
}

// The line of a turn; none of a `take`, whose octets are kept already.
fn kept_line(alloc: Global, line: &[u8], order: &HouseOrder) -> Result<Octets, AllocError> {
    match order {
        HouseOrder::Take(_) => Ok(Octets::new(alloc)),
        _ => octets_of(alloc, line),
    }
}

// Whether a record begins as a head, and not as one of this version.
#[tactic(auto, using(crate::proofs::SegmentLemmas::other_head))]
fn is_other_head(head: &[u8]) -> bool
    ensures { Decides result (IsOtherHead head.now) }
{
    let Some(_) = without(b"cdshouse journal ", head) else {
        return false;
    };
    let Some(_) = without(b"cdshouse journal 2 ", head) else {
        return true;
    };
    false
}

// The digest that a head names, and its own.
#[derive(Drop)]
struct Named<'a> {
    before: &'a [u8],
    digest: [u8; DIGEST],
}

// The digests of the head with this title.
fn head_in<'a>(title: &[u8], head: &'a [u8]) -> Option<Named<'a>>
    ensures some { IfSome result
        (λ r. head.now ≡ sealed r.before.now (title.now ++ r.before.now)) }
    ensures size { IfSome result (λ r. length r.before.now ≡ 32) }
    ensures digest { IfSome result
        (λ r. r.digest ≡ digest_after r.before.now (title.now ++ r.before.now)) }
    ensures none { IfNone result ((given : List ℕ) → length given ≡ 32
        → head.now ≢ sealed given (title.now ++ given)) }
{
    let ends = without(title, head)?;
    if ends.len() != 2 * DIGEST {
        return None;
    }
    let (before, _) = ends.split_at(DIGEST);
    let sealed = unsealed(before, head)?;
    let digest = sealed.digest;
    Some(Named { before, digest })
}

// The turn of these parts, if its line is one of a turn.
fn turn_of(alloc: Global, clock: u64, parts: TurnText<'_>) -> Result<Option<LoggedTurn>, AllocError>
    ensures some { IfOk result (λ o. IfSome o (IsTurnBy parts.entry clock)) }
    ensures none { IfOk result (λ o. IfNone o ((t : LoggedTurn')
        → said_in (words_of parts.entry.line.now) ≢ Ok (Some (asks.Order t.order)))) }
{
    let TurnText {
        line,
        posts,
        answer,
    } = parts;
    let Some(HouseLine::Order(order)) = said_by(alloc, line)? else {
        return Ok(None);
    };
    Ok(Some(LoggedTurn {
        clock,
        line: kept_line(alloc, line, &order)?,
        order,
        posts,
        answer: octets_of(alloc, answer)?,
        image: None,
    }))
}

// The house that is made by a turn of these parts.
fn made_by(alloc: Global, parts: &TurnText<'_>) -> Result<Option<Making>, AllocError>
    ensures some { IfOk result (λ o. IfSome o (IsMadeBy parts.now)) }
    ensures none { IfOk result (λ o. IfNone o (parts.now.posts.items ≡ []
        → parts.now.answer.now ≡ codes "ok" → ¬ MakesHouse parts.now.line.now)) }
{
    if !parts.posts.is_empty() {
        return Ok(None);
    }
    if parts.answer != b"ok".as_slice() {
        return Ok(None);
    }
    let Some(says) = said_by(alloc, parts.line)? else {
        return Ok(None);
    };
    match &says {
        HouseLine::House(house, node) => Ok(Some(Making {
            house: *house,
            node: *node,
        })),
        _ => Ok(None),
    }
}

// Whether a record is one of an entry, and no first one of a process or of a segment.
fn is_entry(body: &Body<'_>) -> bool
    ensures yes { (r : LogReader') → CanFollow r body.now
        → OnTrue result (body.now.number ≡ r.number + 1) }
    ensures no { (r : LogReader') → CanFollow r body.now
        → OnFalse result (body.now.number ≡ r.number) }
{
    match body.image {
        None => body.text != b"new\n".as_slice(),
        Some(_) => without(b"segment ", body.text).is_none(),
    }
}

// What comes after the head of a segment, and the digest of the head.
#[derive(Drop)]
pub(crate) struct Head<'a> {
    pub(crate) digest: [u8; DIGEST],
    pub(crate) rest: &'a [u8],
}

// Where the records of a segment that follow one another end: the digest of the last one, and the
// place of the next one.
#[derive(Drop)]
pub(crate) struct Chain {
    pub(crate) digest: [u8; DIGEST],
    pub(crate) place: u64,
}

impl LogReader {
    /// Of a journal of which nothing was read yet.
    pub fn new(alloc: Global) -> LogReader
        ensures read { HasRead result [] }
        ensures segments { result.segments ≡ 0 }
        ensures digest { result.digest ≡ replicate 32 0 }
    {
        LogReader {
            segments: 0,
            digest: [0; DIGEST],
            made: None,
            image: None,
            entries: Vec::new(alloc),
            number: 0,
            clock: 0,
            turn: Vec::new(alloc),
        }
    }

    /// The journal; none, if no house was made yet.
    pub fn finish(self) -> Option<HouseLog>
        ensures { (bodies : List (List ℕ)) → HasRead self bodies
            → MatchOption result (All IsNew bodies) (IsJournalOf bodies) }
    {
        let LogReader {
            made,
            image,
            entries,
            ..
        } = self;
        let Making { house, node } = made?;
        Some(HouseLog {
            house,
            node,
            image,
            entries,
        })
    }

    /// Reads the octets of the next segment. Where they are none, the records before the first
    /// fault are read.
    pub fn read(&mut self, alloc: Global, octets: &[u8]) -> Result<(), AllocOr<LogFault>>
        ensures segments { OnOk result (self.new.segments ≡ self.old.segments + 1) }
        ensures read { (bodies : List (List ℕ)) → HasRead self.old bodies
            → OnOk result (ReadsOn bodies octets.now self.old self.new) }
        ensures stopped { (bodies : List (List ℕ)) → HasRead self.old bodies
            → self.old.segments + 1 < 2 ^ 64 → IfFault result (λ fault.
            ReadsFront (self.old.segments + 1) self.old.digest bodies octets.now fault self.new) }
    {
        let Some(number) = self.segments.checked_add(1) else {
            return Err(AllocOr::Fault(LogFault::NotNext(self.segments)));
        };
        let title = head_octets(alloc, number, b"")?;
        let head = match self.read_head(number, &title, octets) {
            Ok(head) => head,
            Err(fault) => return Err(AllocOr::Fault(fault)),
        };
        let chain = self.read_chain(alloc, number, head.digest, head.rest)?;
        let Some(_) = last_record(&title, octets) else {
            return Err(AllocOr::Fault(LogFault::Damaged(number, chain.place)));
        };
        let digest = chain.digest;
        self.digest = digest;
        self.segments = number;
        Ok(())
    }

    // What comes after the head of the segment with this number, which has to name the digest of
    // the last record that was read.
    fn read_head<'a>(
        &self,
        number: u64,
        title: &[u8],
        octets: &'a [u8],
    ) -> Result<Head<'a>, LogFault>
        ensures is { title.now ≡ head_of number []
            → IfOk result (IsAfterHead number self.now.digest octets.now) }
        ensures fault { title.now ≡ head_of number [] → (bodies : List (List ℕ))
            → IfErr result (IsFaultOf number self.now.digest bodies octets.now []) }
    {
        let Some((head, rest)) = first_record(octets) else {
            return Err(LogFault::Damaged(number, 1));
        };
        if is_other_head(head) {
            return Err(LogFault::OtherVersion(number));
        }
        let Some(named) = head_in(title, head) else {
            return Err(LogFault::Damaged(number, 1));
        };
        if named.before != self.digest.as_slice() {
            return Err(LogFault::NotNext(number));
        }
        let digest = named.digest;
        Ok(Head { digest, rest })
    }

    // Reads the records at the front of octets that are a chain after this digest, up to the first
    // one that is none.
    fn read_chain(
        &mut self,
        alloc: Global,
        number: u64,
        before: [u8; DIGEST],
        octets: &[u8],
    ) -> Result<Chain, AllocOr<LogFault>>
        ensures digest { self.new.digest ≡ self.old.digest }
        ensures segments { self.new.segments ≡ self.old.segments }
        ensures read { (bodies : List (List ℕ)) → HasRead self.old bodies
            → IfOk result (λ chain. ReadsChain before octets.now bodies chain self.new) }
        ensures stopped { (bodies : List (List ℕ)) → HasRead self.old bodies
            → IfFault result (λ fault. StopsAt number before octets.now bodies fault self.new) }
    {
        let mut rest = octets;
        let mut digest = before;
        let mut place: u64 = 2;
        'records: while let Some((sealed, behind)) = first_record(rest) {
            let Some(next) = unsealed(&digest, sealed) else {
                return Ok(Chain { digest, place });
            };
            self.read_record(alloc, number, place, next.body)?;
            digest = next.digest;
            rest = behind;
            place += 1;
        }
        Ok(Chain { digest, place })
    }

    // Reads the record with this body, which has this place in the segment with this number.
    fn read_record(
        &mut self,
        alloc: Global,
        number: u64,
        place: u64,
        octets: &[u8],
    ) -> Result<(), AllocOr<LogFault>>
        ensures digest { self.new.digest ≡ self.old.digest }
        ensures segments { self.new.segments ≡ self.old.segments }
        ensures read { (bodies : List (List ℕ)) → HasRead self.old bodies
            → OnOk result (HasRead self.new (bodies ++ octets.now ∷ [])) }
        ensures stopped { (bodies : List (List ℕ)) → HasRead self.old bodies
            → IfFault result (λ fault. HasRead self.new bodies) }
        ensures why { (bodies : List (List ℕ)) → HasRead self.old bodies
            → IfFault result (IsOfRecord number place bodies octets.now) }
    {
        let Some(body) = read_body(octets) else {
            return Err(AllocOr::Fault(LogFault::BadRecord(number, place)));
        };
        if let Some(due) = self.other_number(&body) {
            return Err(AllocOr::Fault(LogFault::NotDue(number, place, body.number, due)));
        }
        if self.take_body(alloc, &body)? {
            Ok(())
        } else {
            Err(AllocOr::Fault(LogFault::BadRecord(number, place)))
        }
    }

    // The number that is due, if a record has another one: that of the last entry, or of the next.
    fn other_number(&self, body: &Body<'_>) -> Option<u64>
        ensures due { IfSome result (λ due. (due ≡ self.now.number) ⊎ (due ≡ self.now.number + 1)) }
        ensures other { IfSome result (λ due. body.now.number ≢ due) }
        ensures none { IfSome result (λ due. ¬ CanFollow self.now body.now) }
    {
        let due = self.due_number(body)?;
        if body.number == due { None } else { Some(due) }
    }

    // The number that is due: that of the next entry, or of the last one; none at the end.
    fn due_number(&self, body: &Body<'_>) -> Option<u64>
        ensures is { IfSome result (λ due. (due ≡ self.now.number) ⊎ (due ≡ self.now.number + 1)) }
        ensures due { IfSome result
            (λ due. CanFollow self.now body.now → body.now.number ≡ due) }
    {
        if !is_entry(body) {
            return Some(self.number);
        }
        let due = self.number.checked_add(1)?;
        Some(due)
    }

    // Whether the number of an entry is the next one.
    fn is_due(&self, number: u64) -> bool
        ensures { Decides result (number ≡ self.now.number + 1) }
    {
        self.number.checked_add(1) == Some(number)
    }

    // Takes a record that has the number which is due. Whether a house writes it there.
    fn take_body(&mut self, alloc: Global, body: &Body<'_>) -> Result<bool, AllocError>
        ensures head { KeepsHead self.old self.new }
        ensures read { (bodies : List (List ℕ)) (octets : List ℕ) → HasRead self.old bodies
            → IsDue octets body.now → IfOk result (IsReadOn self.new bodies octets) }
        ensures kept { (bodies : List (List ℕ)) → HasRead self.old bodies
            → IfOk result (λ takes. OnFalse takes (HasRead self.new bodies)) }
        ensures refused { IfOk result (λ takes. OnFalse takes (¬ CanFollow self.old body.now)) }
    {
        let Some(image) = body.image else {
            if body.text == b"new\n".as_slice() {
                return Ok(self.is_new(body));
            }
            return self.take_turn(alloc, body);
        };
        if let Some(turn) = without(b"start\n", body.text) {
            return self.take_start(alloc, body, turn, image);
        }
        self.goes_on(alloc, body, image)
    }

    // Whether a record without an image is the first one of a process without a house.
    fn is_new(&self, body: &Body<'_>) -> bool
        ensures { Decides result ((self.now.made ≡ None) × ((body.now.number ≡ 0)
            × ((body.now.clock ≡ 0) × (body.now.text.now ≡ codes "new" ++ 10 ∷ [])))) }
    {
        self.made.is_none()
            && body.number == 0
            && body.clock == 0
            && body.text == b"new\n".as_slice()
    }

    // Whether a record has the fields of a start, after the text of the last turn.
    fn is_start(&self, body: &Body<'_>, turn: &[u8]) -> bool
        ensures { Decides result ((is_none self.now.made ≡ false)
            × ((body.now.number ≡ self.now.number + 1) × ((body.now.clock ≡ 0)
            × (turn.now ≡ self.now.turn.items)))) }
    {
        self.made.is_some()
            && self.is_due(body.number)
            && body.clock == 0
            && turn == self.turn.as_slice()
    }

    // Takes the record of a start.
    fn take_start(
        &mut self,
        alloc: Global,
        body: &Body<'_>,
        turn: &[u8],
        image: &[u8],
    ) -> Result<bool, AllocError>
        ensures head { KeepsHead self.old self.new }
        ensures read { (bodies : List (List ℕ)) (octets : List ℕ) → HasRead self.old bodies
            → IsBody octets body.now.number body.now.clock (codes "start" ++ (10 ∷ turn.now))
            (Some image.now)
            → IfOk result (IsReadOn self.new bodies octets) }
        ensures kept { (bodies : List (List ℕ)) → HasRead self.old bodies
            → IfOk result (λ takes. OnFalse takes (HasRead self.new bodies)) }
        ensures refused { body.now.text.now ≡ codes "start" ++ (10 ∷ turn.now)
            → IfOk result (λ takes. OnFalse takes (¬ CanStart self.old body.now)) }
    {
        if !self.is_start(body, turn) {
            return Ok(false);
        }
        let started = octets_of(alloc, image)?;
        self.entries.push(LogEntry::Started(started))?;
        self.number = body.number;
        self.clock = 0;
        Ok(true)
    }

    // The line of the first record of a segment in the middle of a process.
    fn segment_line(&self, alloc: Global) -> Result<Vec<u8>, AllocError>
        ensures { IfOk result
            (λ v. v.items ≡ codes "segment " ++ (decimal self.now.number ++ 10 ∷ [])) }
    {
        let mut line = Vec::from_slice(alloc, b"segment ")?;
        push_number(&mut line, self.number)?;
        line.push(b'\n')?;
        Ok(line)
    }

    // Whether a record has the number and the clock of the last entry.
    fn is_last(&self, body: &Body<'_>) -> bool
        ensures { Decides result ((is_none self.now.made ≡ false)
            × ((body.now.number ≡ self.now.number) × (body.now.clock ≡ self.now.clock))) }
    {
        self.made.is_some() && body.number == self.number && body.clock == self.clock
    }

    // Gives an image to the last entry. Whether that has none yet, or this one.
    fn show(&mut self, alloc: Global, image: &[u8]) -> Result<bool, AllocError>
        ensures head { KeepsHead self.old self.new }
        ensures made { self.new.made ≡ self.old.made }
        ensures shows { (m : Making') → IfOk result
            (λ has. OnTrue has (Shows (told_of m self.old) image.now (told_of m self.new))) }
        ensures kept { (bodies : List (List ℕ)) → HasRead self.old bodies
            → IfOk result (λ has. OnFalse has (HasRead self.new bodies)) }
        ensures refused { IfOk result (λ has. OnFalse has
            (¬ CanBe (known_in self.old.image self.old.entries.items) image.now)) }
    {
        let shown = octets_of(alloc, image)?;
        let Some(last) = self.entries.pop() else {
            if !can_be(self.image.as_ref(), image) {
                return Ok(false);
            }
            self.image = Some(shown);
            return Ok(true);
        };
        if !can_be(last.image(), image) {
            self.entries.push(last)?;
            return Ok(false);
        }
        self.entries.push(last.with_image(shown))?;
        Ok(true)
    }

    // Takes the first record of a segment in the middle of a process.
    fn goes_on(&mut self, alloc: Global, body: &Body<'_>, image: &[u8]) -> Result<bool, AllocError>
        ensures head { KeepsHead self.old self.new }
        ensures read { (bodies : List (List ℕ)) (octets : List ℕ) → HasRead self.old bodies
            → IsBody octets body.now.number body.now.clock body.now.text.now (Some image.now)
            → IfOk result (IsReadOn self.new bodies octets) }
        ensures kept { (bodies : List (List ℕ)) → HasRead self.old bodies
            → IfOk result (λ goes. OnFalse goes (HasRead self.new bodies)) }
        ensures refused { option_copied body.now.image ≡ Some image.now
            → IfOk result (λ goes. OnFalse goes (¬ CanGoOn self.old body.now)) }
    {
        if !self.is_last(body) {
            return Ok(false);
        }
        let line = self.segment_line(alloc)?;
        let Some(rest) = without(&line, body.text) else {
            return Ok(false);
        };
        if !is_after_running(rest, &self.turn) {
            return Ok(false);
        }
        self.show(alloc, image)
    }

    // Takes a record of a turn, which shows no image: the first one makes the house.
    fn take_turn(&mut self, alloc: Global, body: &Body<'_>) -> Result<bool, AllocError>
        ensures head { KeepsHead self.old self.new }
        ensures read { (bodies : List (List ℕ)) (octets : List ℕ) → HasRead self.old bodies
            → IsBare octets body.now → IfOk result (IsReadOn self.new bodies octets) }
        ensures kept { (bodies : List (List ℕ)) → HasRead self.old bodies
            → IfOk result (λ takes. OnFalse takes (HasRead self.new bodies)) }
        ensures refused { IfOk result (λ takes. OnFalse takes
            ((¬ CanMake self.old body.now) × (¬ CanTurn self.old body.now))) }
    {
        if !self.is_due(body.number) {
            return Ok(false);
        }
        let Some(parts) = turn_in(alloc, body.text)? else {
            return Ok(false);
        };
        if self.made.is_none() {
            return self.take_making(alloc, body, &parts);
        }
        self.push_turn(alloc, body, parts)
    }

    // The house is made by a turn of these parts.
    fn take_making(
        &mut self,
        alloc: Global,
        body: &Body<'_>,
        parts: &TurnText<'_>,
    ) -> Result<bool, AllocError>
        requires none { self.old.made ≡ None }
        requires due { body.now.number ≡ self.old.number + 1 }
        requires text { IsTurnText body.now.text.now parts.now.line.now parts.now.posts.items
            parts.now.answer.now }
        ensures head { KeepsHead self.old self.new }
        ensures read { (bodies : List (List ℕ)) (octets : List ℕ) → HasRead self.old bodies
            → IsBare octets body.now → IfOk result (IsReadOn self.new bodies octets) }
        ensures kept { (bodies : List (List ℕ)) → HasRead self.old bodies
            → IfOk result (λ takes. OnFalse takes (HasRead self.new bodies)) }
        ensures refused { IfOk result (λ takes. OnFalse takes (¬ CanMake self.old body.now)) }
    {
        if body.clock != 0 {
            return Ok(false);
        }
        let Some(made) = made_by(alloc, parts)? else {
            return Ok(false);
        };
        self.turn = Vec::from_slice(alloc, body.text)?;
        self.image = None;
        self.made = Some(made);
        self.number = body.number;
        self.clock = 0;
        Ok(true)
    }

    // Takes a turn of these parts.
    fn push_turn(
        &mut self,
        alloc: Global,
        body: &Body<'_>,
        parts: TurnText<'_>,
    ) -> Result<bool, AllocError>
        requires some { is_none self.old.made ≡ false }
        requires due { body.now.number ≡ self.old.number + 1 }
        requires text { IsTurnText body.now.text.now parts.line.now parts.posts.items
            parts.answer.now }
        ensures head { KeepsHead self.old self.new }
        ensures read { (bodies : List (List ℕ)) (octets : List ℕ) → HasRead self.old bodies
            → IsBare octets body.now → IfOk result (IsReadOn self.new bodies octets) }
        ensures kept { (bodies : List (List ℕ)) → HasRead self.old bodies
            → IfOk result (λ takes. OnFalse takes (HasRead self.new bodies)) }
        ensures refused { IfOk result (λ takes. OnFalse takes (¬ CanTurn self.old body.now)) }
    {
        let Some(turn) = turn_of(alloc, body.clock, parts)? else {
            return Ok(false);
        };
        self.turn = Vec::from_slice(alloc, body.text)?;
        self.entries.push(LogEntry::Turned(turn))?;
        self.number = body.number;
        self.clock = body.clock;
        Ok(true)
    }
}
