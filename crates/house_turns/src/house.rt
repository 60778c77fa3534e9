// A house between two lines.
ghost use Rattle.std.specs.Prelude.{◌≡◌, ◌+◌, ◌++◌, [], length, nat_lt, not, if◌then◌else◌, IfOk, OnOk, None, Some};
ghost use Rattle.std.specs.Option.{option_map};
ghost use Rattle.cell_script.specs.Words.{words_of};
ghost use Rattle.script_answers.specs.Texts.{lines_text, parse_fault_text};
ghost use Rattle.house_serving.specs.Replies.{said_in};
ghost use Rattle.house_turns.specs.HouseReplies as replies;
ghost use Rattle.clearinghouse.specs.declared.house.Clearinghouse.{Clearinghouse};
ghost use Rattle.house_lines.specs.declared.line.HouseLine.TheVariants as asks;
ghost use Rattle.house_lines.specs.declared.line.HouseOrder.TheVariants as order;
ghost use Rattle.house_turns.specs.HouseReplies.{RepliesMore, RepliesOrder, RepliesTake, RepliesTo, Responds, with_spaces, turn_lines};
ghost use Rattle.house_turns.specs.Openings.{new_house};
ghost use Rattle.house_turns.specs.Records.{HomeFits, IsRecord, IsTurnRecord, image_in};
ghost use Rattle.house_turns.specs.PrivateTurns.{Does, Makes, Obeys, ReplyOf, SaysAsked, SetsClock, TurnReply, posts_in};

use crate::asking::ask;
use crate::founding::{mkdir, root};
use crate::octets::OctetBuffer;
use crate::posts::{push_kept, push_posts};
use crate::said::{Posts, Said, refused, told, told_words, turned};
use crate::taking::take;
use crate::turns::{epoch, repoint, skulk, update};
use cds_stamps::{AllocOr, HouseNo, Node};
use cell_script::{Octets, ParseFault, Words};
use clearinghouse::Clearinghouse;
use house_entries::body_octets;
use house_lines::{HouseLine, HouseOrder, HouseQuestion, parse_house_line};
use house_serving::{Reply, Responder};
use script_answers::{Answer, ScriptRefusal, begin_line, print_parse_fault, push_hex};
use std::alloc::{AllocError, Global};

/// The most octets of a message.
pub const MOST_MESSAGE: usize = 16_777_216;

/// A house: what it holds, if it was made, and its node; its clock; the number of its last entry;
/// the text of its last turn; and octets of the message that it is to take next.
#[derive(Drop)]
pub struct House {
    pub(crate) home: Option<Clearinghouse>,
    pub(crate) node: Node,
    pub(crate) clock: u64,
    pub(crate) entry: u64,
    pub(crate) last: OctetBuffer,
    pub(crate) more: OctetBuffer,
}

// The words of a line, with one space between two.
fn words_joined(alloc: Global, line: &[u8]) -> Result<Vec<u8>, AllocError>
    ensures { IfOk result (λ v. v.items ≡ with_spaces (words_of line.now)) }
{
    let mut text = Vec::new(alloc);
    let mut words = Words::of(line);
    let Some(first) = words.next() else {
        return Ok(text);
    };
    text.extend_from_slice(first)?;
    'words: while let Some(word) = words.next() {
        text.push(b' ')?;
        text.extend_from_slice(word)?;
    }
    Ok(text)
}

// The line of a message that is taken.
fn take_line(alloc: Global, octets: &[u8]) -> Result<Vec<u8>, AllocError>
    ensures { IfOk result (λ v. v.items ≡ replies.take_line octets.now) }
{
    let mut line = Vec::from_slice(alloc, b"take ")?;
    push_hex(&mut line, octets)?;
    Ok(line)
}

// The text of a turn: its line, what it posts, and its answer.
fn turn_text(
    alloc: Global,
    line: &[u8],
    posts: &Posts,
    answer: &[u8],
) -> Result<Vec<u8>, AllocError>
    ensures { IfOk result
        (λ v. v.items ≡ replies.turn_text line.now (posts_in posts.now) answer.now) }
{
    let mut text = Vec::from_slice(alloc, line)?;
    text.push(b'\n')?;
    push_kept(&mut text, posts)?;
    text.extend_from_slice(answer)?;
    text.push(b'\n')?;
    Ok(text)
}

// What is said of a turn: what it posts, and its answer.
fn turn_told(
    alloc: Global,
    number: u32,
    posts: &Posts,
    answer: &[u8],
) -> Result<Vec<u8>, AllocError>
    ensures { IfOk result
        (λ v. v.items ≡ lines_text number (turn_lines (posts_in posts.now) answer.now)) }
{
    let mut text = Vec::new(alloc);
    push_posts(&mut text, number, posts)?;
    begin_line(&mut text, number)?;
    text.extend_from_slice(answer)?;
    text.push(b'\n')?;
    Ok(text)
}

// A reply that is no turn.
fn without_record(text: Vec<u8>) -> Reply
    ensures { said_in result ≡ record { text = text.items; body = None } }
{
    Reply { text, record: None }
}

impl House {
    /// A folder without a house.
    pub fn new(alloc: Global) -> House
        ensures { result ≡ new_house }
    {
        House {
            home: None,
            node: Node::new(0).unwrap(),
            clock: 0,
            entry: 0,
            last: OctetBuffer::new(alloc),
            more: OctetBuffer::new(alloc),
        }
    }

    // Adds octets to those of the next message; or forgets them all, if they are too many.
    fn gather(&mut self, octets: &[u8]) -> Result<bool, AllocError>
        ensures fits { IfOk result
            (λ b. b ≡ not (nat_lt MOST_MESSAGE (length (self.old.more ++ octets.now)))) }
        ensures after { IfOk result (λ b. self.new
            ≡ record self.old { more = if b then self.old.more ++ octets.now else [] }) }
    {
        let count = self.more.list().len();
        if octets.len() > MOST_MESSAGE || count > MOST_MESSAGE - octets.len() {
            self.more.clear();
            return Ok(false);
        }
        self.more.extend(octets)?;
        Ok(true)
    }

    // The image of the house, if it was made.
    fn image(&self, alloc: Global) -> Result<Option<Vec<u8>>, AllocError>
        ensures octets { IfOk result (λ o. option_map (λ v. v.items) o ≡ image_in self.now.home) }
        ensures fits { OnOk result (HomeFits self.now.home) }
    {
        match &self.home {
            Some(home) => Ok(Some(home.image(alloc)?)),
            None => Ok(None),
        }
    }

    /// The body of the first record of a segment, with this text, in the house as it is.
    pub(crate) fn body(&self, alloc: Global, text: &[u8]) -> Result<Vec<u8>, AllocError>
        ensures { IfOk result (λ v. IsRecord self.now text.now v.items) }
    {
        if text.len() > u32::MAX as usize {
            return Err(AllocError);
        }
        let image = self.image(alloc)?;
        body_octets(alloc, self.entry, self.clock, text, image.as_deref())
    }

    // The body of the record of a turn with this text, after which the house is as it is.
    fn turn_body(&self, alloc: Global, text: &[u8]) -> Result<Vec<u8>, AllocError>
        ensures { IfOk result (λ v. IsTurnRecord self.now text.now v.items) }
    {
        if text.len() > u32::MAX as usize {
            return Err(AllocError);
        }
        body_octets(alloc, self.entry, self.clock, text, None)
    }

    // The reply to a line that was a turn.
    fn turn_reply(
        &mut self,
        alloc: Global,
        number: u32,
        line: &[u8],
        posts: &Posts,
        answer: &[u8],
    ) -> Result<Reply, AllocError>
        ensures { IfOk result (λ r. TurnReply self.old number line.now (posts_in posts.now)
            answer.now (said_in r) self.new) }
    {
        let kept = turn_text(alloc, line, posts, answer)?;
        self.entry = self.entry.checked_add(1).ok_or(AllocError)?;
        let body = self.turn_body(alloc, &kept)?;
        self.last = OctetBuffer::of(kept);
        Ok(Reply {
            text: turn_told(alloc, number, posts, answer)?,
            record: Some(body),
        })
    }

    // The reply to a line that comes to this.
    fn reply(
        &mut self,
        alloc: Global,
        number: u32,
        line: &[u8],
        said: Said,
    ) -> Result<Reply, AllocError>
        ensures { IfOk result (λ r. ReplyOf self.old number line.now said (said_in r) self.new) }
    {
        match said {
            Said::Told(text) => Ok(without_record(text)),
            Said::Turned(posts, answer) => self.turn_reply(alloc, number, line, &posts, &answer),
        }
    }

    // Makes the house.
    fn make(
        &mut self,
        alloc: Global,
        number: u32,
        house: HouseNo,
        node: Node,
    ) -> Result<Said, AllocError>
        ensures { IfOk result
            (λ s. Makes self.old.home number self.old self.new house node s) }
    {
        if self.home.is_some() {
            return refused(alloc, number, ScriptRefusal::HouseExists);
        }
        self.home = Some(Clearinghouse::new(alloc, house, node));
        self.node = node;
        turned(alloc, Posts::none(), &Answer::Done)
    }

    // Sets the clock.
    fn set_clock(&mut self, alloc: Global, number: u32, time: u64) -> Result<Said, AllocError>
        ensures { IfOk result
            (λ s. SetsClock self.old.home number self.old self.new time s) }
    {
        if self.home.is_none() {
            return refused(alloc, number, ScriptRefusal::NoHouse);
        }
        self.clock = time;
        told(alloc, number, &Answer::Done)
    }

    // What the house answers to a question.
    fn answer(
        &self,
        alloc: Global,
        number: u32,
        question: &HouseQuestion,
    ) -> Result<Said, AllocError>
        ensures { IfOk result (λ s. SaysAsked self.now.home number question.now s) }
    {
        match &self.home {
            Some(home) => ask(alloc, home, number, question),
            None => refused(alloc, number, ScriptRefusal::NoHouse),
        }
    }

    // What an order comes to.
    fn obey(&mut self, alloc: Global, number: u32, told: HouseOrder) -> Result<Said, AllocError>
        ensures { IfOk result (λ s. Obeys self.old.home number self.old self.new told s) }
    {
        let clock = self.clock;
        match &mut self.home {
            Some(home) => come_to(alloc, home, clock, number, told),
            None => refused(alloc, number, ScriptRefusal::NoHouse),
        }
    }

    // Keeps octets of the next message.
    fn take_more(
        &mut self,
        alloc: Global,
        number: u32,
        octets: &Octets,
    ) -> Result<Reply, AllocError>
        ensures { IfOk result
            (λ r. RepliesMore self.old number octets.now (said_in r) self.new) }
    {
        if !self.gather(octets.list())? {
            let said = told_words(alloc, number, b"refused TooLong")?;
            return self.reply(alloc, number, &[], said);
        }
        let said = told(alloc, number, &Answer::Done)?;
        self.reply(alloc, number, &[], said)
    }

    // Takes the message of the octets that were kept, and these.
    fn take_all(&mut self, alloc: Global, number: u32, octets: &Octets) -> Result<Reply, AllocError>
        ensures { IfOk result (λ r. RepliesTake self.old.home self.old number
            (self.old.more ++ octets.now) (said_in r) self.new) }
    {
        if self.home.is_none() {
            self.more.clear();
            let said = refused(alloc, number, ScriptRefusal::NoHouse)?;
            return self.reply(alloc, number, &[], said);
        }
        if !self.gather(octets.list())? {
            let said = told_words(alloc, number, b"refused TooLong")?;
            return self.reply(alloc, number, &[], said);
        }
        let octets = std::mem::replace(&mut self.more, OctetBuffer::new(alloc));
        self.take_whole(alloc, number, octets.list())
    }

    // Takes the message of these octets.
    fn take_whole(&mut self, alloc: Global, number: u32, octets: &[u8]) -> Result<Reply, AllocError>
        ensures { (c : Clearinghouse) → self.old.home ≡ Some c → self.old.more ≡ []
            → IfOk result (λ r. RepliesOrder (Some c) self.old number
            (replies.take_line octets.now) (order.Take octets.now) (said_in r) self.new) }
    {
        let said = match &mut self.home {
            Some(home) => take(alloc, home, number, octets)?,
            None => return Ok(without_record(Vec::new(alloc))),
        };
        let line = take_line(alloc, octets)?;
        self.reply(alloc, number, &line, said)
    }

    // The reply to a line that gives no octets of a message: those that were kept are forgotten.
    fn reply_alone(
        &mut self,
        alloc: Global,
        number: u32,
        line: &[u8],
        said: Said,
    ) -> Result<Reply, AllocError>
        ensures { IfOk result (λ r. ReplyOf (record self.old { more = [] }) number
            (with_spaces (words_of line.now)) said (said_in r) self.new) }
    {
        self.more.clear();
        let words = words_joined(alloc, line)?;
        self.reply(alloc, number, &words, said)
    }

    // The reply to an order. A message is that of the octets that were kept, and these.
    fn reply_order(
        &mut self,
        alloc: Global,
        number: u32,
        line: &[u8],
        told: HouseOrder,
    ) -> Result<Reply, AllocError>
        ensures { IfOk result (λ r. RepliesTo self.old number (words_of line.now) (asks.Order told)
            (said_in r) self.new) }
    {
        match told {
            HouseOrder::Take(octets) => self.take_all(alloc, number, &octets),
            other => {
                let said = self.obey(alloc, number, other)?;
                self.reply_alone(alloc, number, line, said)
            }
        }
    }

    // The reply to a line that says this.
    fn reply_to(
        &mut self,
        alloc: Global,
        number: u32,
        line: &[u8],
        says: HouseLine,
    ) -> Result<Reply, AllocError>
        ensures { IfOk result
            (λ r. RepliesTo self.old number (words_of line.now) says (said_in r) self.new) }
    {
        match says {
            HouseLine::House(house, node) => {
                let said = self.make(alloc, number, house, node)?;
                self.reply_alone(alloc, number, line, said)
            }
            HouseLine::Clock(time) => {
                let said = self.set_clock(alloc, number, time)?;
                self.reply_alone(alloc, number, line, said)
            }
            HouseLine::More(octets) => self.take_more(alloc, number, &octets),
            HouseLine::Ask(question) => {
                let said = self.answer(alloc, number, &question)?;
                self.reply_alone(alloc, number, line, said)
            }
            HouseLine::Order(told) => self.reply_order(alloc, number, line, told),
        }
    }

    // The reply to a line that has a fault.
    fn reply_fault(
        &mut self,
        alloc: Global,
        number: u32,
        fault: ParseFault,
    ) -> Result<Reply, AllocError>
        ensures said { IfOk result
            (λ r. said_in r ≡ record { text = parse_fault_text number fault; body = None }) }
        ensures after { OnOk result (self.new ≡ record self.old { more = [] }) }
    {
        self.more.clear();
        Ok(without_record(print_parse_fault(alloc, number, fault)?))
    }
}

// What an order comes to at a clearinghouse.
fn come_to(
    alloc: Global,
    home: &mut Clearinghouse,
    clock: u64,
    number: u32,
    told: HouseOrder,
) -> Result<Said, AllocError>
    ensures { IfOk result (λ s. Does number home.old home.new clock told s) }
{
    match told {
        HouseOrder::Root(others) => root(alloc, home, number, &others),
        HouseOrder::Mkdir(dir, name, child, others) => {
            mkdir(alloc, home, clock, number, dir, name, child, &others)
        }
        HouseOrder::Repoint(dir, name, master, others) => {
            repoint(alloc, home, clock, number, dir, name, master, others.list())
        }
        HouseOrder::Update(dir, change) => update(alloc, home, clock, number, dir, &change),
        HouseOrder::Skulk(dir) => skulk(alloc, home, clock, number, dir),
        HouseOrder::Epoch(dir, k, list) => epoch(alloc, home, number, dir, k, &list),
        HouseOrder::Take(octets) => take(alloc, home, number, octets.list()),
    }
}

impl Responder for House {
    ghost responds = { Responds };

    fn respond(&mut self, alloc: Global, number: u32, line: &[u8]) -> Result<Reply, AllocError> {
        match parse_house_line(alloc, line) {
            Ok(None) => Ok(without_record(Vec::new(alloc))),
            Ok(Some(says)) => self.reply_to(alloc, number, line, says),
            Err(AllocOr::Fault(fault)) => self.reply_fault(alloc, number, fault),
            Err(AllocOr::OutOfMemory) => Err(AllocError),
        }
    }
}
