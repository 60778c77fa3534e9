// The lines of a plan, and what comes of their answers.
ghost use Rattle.std.specs.Prelude.{◌≡◌, ◌∷◌, ◌++◌, codes, decimal, IfOk, OnOk};
ghost use Rattle.cell_names.specs.FullNames.{full_name_octets};
ghost use Rattle.std.specs.Option.{option_map};
ghost use Rattle.directory.specs.Updates.{change_of};
ghost use Rattle.ns_commands.specs.declared.updates.Updates.{Updates};
ghost use Rattle.clerk_turns.specs.Sendings.{IsUnsent, Sends, again, with_doubt, fate_of, fate_of_line, fate_of_update, front_text, in_doubt, last_said, next_line, with_plan, refusal_in, one_line_on, update_text, value_text};
ghost use Rattle.clerk_turns.specs.Turns.{PlansAgain, StepComes, StepDown, StepTold, TriesAgain};

use crate::clerk::{Clerk, Job, Sending, Topic};
use crate::says::say_line;
use attr_sets::Value;
use cds_clerk::{Answers, Heard, Root};
use cds_stamps::{AttrName, DirId, HouseNo, SimpleName};
use cell_names::FullName;
use clerk_lines::first_word;
use directory::Update;
use ns_commands::Updates;
use script_answers::{push_hex, push_number};
use std::alloc::{AllocError, Global};

// So often a plan is worked out.
const MOST_TRIES: u64 = 8;

const DOWN: &[u8] = b"refused Down";

// A word, a directory and a name.
fn push_front(
    line: &mut Vec<u8>,
    word: &[u8],
    dir: DirId,
    name: &SimpleName,
) -> Result<(), AllocError>
    ensures { OnOk result (line.new.items
        ≡ line.old.items ++ front_text word.now dir.0 name.now) }
{
    line.extend_from_slice(word)?;
    line.push(b' ')?;
    push_number(line, u64::from(dir.0))?;
    line.push(b' ')?;
    line.extend_from_slice(name.octets())
}

// An attribute and a value.
fn push_value(line: &mut Vec<u8>, attr: &AttrName, value: &Value) -> Result<(), AllocError>
    ensures { OnOk result (line.new.items
        ≡ line.old.items ++ value_text attr.now value.now) }
{
    line.push(b' ')?;
    line.extend_from_slice(attr.octets())?;
    line.push(b' ')?;
    push_hex(line, value.octets())
}

// The line of a word, a directory and a name.
fn front_line(
    alloc: Global,
    word: &[u8],
    dir: DirId,
    name: &SimpleName,
) -> Result<Vec<u8>, AllocError>
    ensures { IfOk result (λ line. line.items ≡ front_text word.now dir.0 name.now) }
{
    let mut line = Vec::new(alloc);
    push_front(&mut line, word, dir, name)?;
    Ok(line)
}

// The line that changes a value.
fn change_line(
    alloc: Global,
    word: &[u8],
    dir: DirId,
    name: &SimpleName,
    attr: &AttrName,
    value: &Value,
) -> Result<Vec<u8>, AllocError>
    ensures { IfOk result (λ line. line.items
        ≡ front_text word.now dir.0 name.now ++ value_text attr.now value.now) }
{
    let mut line = front_line(alloc, word, dir, name)?;
    push_value(&mut line, attr, value)?;
    Ok(line)
}

// The line that makes a link.
fn link_line(
    alloc: Global,
    dir: DirId,
    name: &SimpleName,
    target: &FullName,
) -> Result<Vec<u8>, AllocError>
    ensures { IfOk result (λ line. line.items
        ≡ front_text (codes "link") dir.0 name.now ++ (32 ∷ full_name_octets target.now)) }
{
    let mut line = front_line(alloc, b"link", dir, name)?;
    line.push(b' ')?;
    target.append_spelling(&mut line)?;
    Ok(line)
}

// The line that clears an attribute.
fn clear_line(
    alloc: Global,
    dir: DirId,
    name: &SimpleName,
    attr: &AttrName,
) -> Result<Vec<u8>, AllocError>
    ensures { IfOk result (λ line. line.items
        ≡ front_text (codes "clear") dir.0 name.now ++ (32 ∷ attr.now)) }
{
    let mut line = front_line(alloc, b"clear", dir, name)?;
    line.push(b' ')?;
    line.extend_from_slice(attr.octets())?;
    Ok(line)
}

// The line of a house that makes an update.
fn update_line(alloc: Global, dir: DirId, update: &Update) -> Result<Vec<u8>, AllocError>
    ensures { IfOk result (λ line. line.items ≡ update_text dir.0 (change_of update.now)) }
{
    match update {
        Update::Create(name) => front_line(alloc, b"create", dir, name),
        Update::Delete(name) => front_line(alloc, b"delete", dir, name),
        Update::MakeLink(name, target) => link_line(alloc, dir, name, target),
        Update::Add(name, attr, value) => change_line(alloc, b"add", dir, name, attr, value),
        Update::Remove(name, attr, value) => change_line(alloc, b"remove", dir, name, attr, value),
        Update::Put(name, attr, value) => change_line(alloc, b"put", dir, name, attr, value),
        Update::Clear(name, attr) => clear_line(alloc, dir, name, attr),
        Update::MakeChild(_, _) | Update::Repoint(_, _) => Ok(Vec::new(alloc)),
    }
}

// The first line that is not done, if there is one.
fn next_line(alloc: Global, sending: &Sending) -> Result<Option<Vec<u8>>, AllocError>
    ensures { IfOk result (λ o. option_map (λ v. v.items) o ≡ next_line sending.now) }
{
    match sending.list.get(sending.done) {
        Some(update) => Ok(Some(update_line(alloc, sending.dir, update)?)),
        None => Ok(None),
    }
}

/// What the last line of an answer to a line of a plan means.
#[derive(Clone, Copy)]
pub(crate) enum Fate {
    /// A command that is one update is done.
    Done,
    /// The command is refused so.
    Refused,
    /// The line is done, and the next one is sent.
    Next,
    /// No stamp is left.
    Spent,
    /// The plan is worked out again.
    Again,
}

// Of an update by a full name.
fn fate_of_update(last: &[u8]) -> Fate
    ensures { result ≡ fate_of_update last.now }
{
    if last.starts_with(b"ok") {
        return Fate::Done;
    }
    if last == b"refused EntryExists".as_slice()
        || last == b"refused NoSuchEntry".as_slice()
        || last == b"refused WrongKind".as_slice()
        || last == b"refused StampsSpent".as_slice()
    {
        return Fate::Refused;
    }
    Fate::Again
}

// Of another line.
fn fate_of_line(last: &[u8]) -> Fate
    ensures { result ≡ fate_of_line last.now }
{
    if last.starts_with(b"ok") {
        return Fate::Next;
    }
    if last == b"refused StampsSpent".as_slice() {
        return Fate::Spent;
    }
    Fate::Again
}

// What the last line of an answer means; what is forbidden is not tried again.
fn fate_of(is_update: bool, last: &[u8]) -> Fate
    ensures { result ≡ fate_of is_update last.now }
{
    if last == b"refused Forbidden".as_slice() {
        return Fate::Refused;
    }
    if is_update {
        fate_of_update(last)
    } else {
        fate_of_line(last)
    }
}

// Why a house did not do a line, as a client hears it: what it says, if that is a refusal.
fn refusal_in(last: &[u8]) -> &[u8]
    ensures { result.now ≡ refusal_in last.now }
{
    if first_word(last) == b"refused".as_slice() {
        last
    } else {
        DOWN
    }
}

// A plan is begun.
fn with_plan(mut job: Job, dir: DirId, list: Vec<Update>) -> Job
    ensures { (u : Updates) → u.dir ≡ dir → u.list ≡ list → result ≡ with_plan job u }
{
    job.sending.done = 0;
    job.sending.list = list;
    job.sending.dir = dir;
    job
}

// One line more is done.
fn one_line_on(mut job: Job) -> Job
    ensures { result ≡ one_line_on job }
{
    job.sending.done = job.sending.done.saturating_add(1);
    job
}

// Nobody knows whether a line was done.
fn with_doubt(mut job: Job) -> Job
    ensures { result ≡ with_doubt job }
{
    job.sending.doubt = true;
    job
}

// A command of which nothing was heard, and that is tried once more.
fn again(alloc: Global, mut job: Job) -> Job
    ensures { result ≡ again job }
{
    job.sending.tries = job.sending.tries.saturating_add(1);
    job.latest = None;
    job.heard = Heard {
        near: None,
        root: Root::Unheard,
        answers: Answers::new(alloc),
    };
    job
}

/// No line of a plan was sent.
pub(crate) fn no_sending(alloc: Global) -> Sending
    ensures { IsUnsent result }
{
    Sending {
        done: 0,
        list: Vec::new(alloc),
        dir: DirId::ROOT,
        tries: 0,
        doubt: false,
    }
}

/// A text with the word `doubt` at the end of its last line, if a line was sent of which nobody
/// knows whether it was done.
pub(crate) fn in_doubt(doubt: bool, mut text: Vec<u8>) -> Result<Vec<u8>, AllocError>
    ensures { IfOk result (λ v. v.items ≡ in_doubt doubt text.items) }
{
    if doubt {
        text.truncate(text.len().saturating_sub(1));
        text.extend_from_slice(b" doubt")?;
        text.push(b'\n')?;
    }
    Ok(text)
}

// Says the last line of a command's answer.
fn say_last(alloc: Global, job: &Job, line: &[u8]) -> Result<Vec<u8>, AllocError>
    ensures { IfOk result (λ text. text.items ≡ last_said job.now line.now) }
{
    let text = say_line(alloc, job.number, line)?;
    in_doubt(job.sending.doubt, text)
}

// The line of words and a number.
fn counted(alloc: Global, words: &[u8], count: usize) -> Result<Vec<u8>, AllocError>
    ensures { IfOk result (λ line. line.items ≡ words.now ++ decimal count) }
{
    let mut line = Vec::new(alloc);
    line.extend_from_slice(words)?;
    push_number(&mut line, count as u64)?;
    Ok(line)
}

// Says that no stamp is left, and how many lines were done.
fn say_spent(alloc: Global, job: &Job) -> Result<Vec<u8>, AllocError>
    ensures { IfOk result (λ text. text.items
        ≡ last_said job.now (codes "refused StampsSpent " ++ decimal job.now.sending.done)) }
{
    let line = counted(alloc, b"refused StampsSpent ", job.sending.done)?;
    say_last(alloc, job, &line)
}

impl Clerk {
    // Sends the first line that is not done, or says that all were done.
    fn send_next(&mut self, alloc: Global, job: Job, house: HouseNo) -> Result<Vec<u8>, AllocError>
        ensures { IfOk result (λ text. Sends self.old job house text.items self.new) }
    {
        match next_line(alloc, &job.sending)? {
            Some(line) => self.ask(alloc, job, house, &line, Topic::Step(house)),
            None => {
                let line = counted(alloc, b"ok ", job.sending.done)?;
                say_line(alloc, job.number, &line)
            }
        }
    }

    /// Begins to send the lines of a plan.
    pub(crate) fn send(
        &mut self,
        alloc: Global,
        job: Job,
        updates: Updates,
    ) -> Result<Vec<u8>, AllocError>
        ensures { IfOk result
            (λ text. Sends self.old (with_plan job updates) updates.house text.items self.new) }
    {
        let Updates { house, dir, list } = updates;
        self.send_next(alloc, with_plan(job, dir, list), house)
    }

    // What comes of the answer of a house to a line.
    fn step(
        &mut self,
        alloc: Global,
        fate: Fate,
        job: Job,
        house: HouseNo,
        last: &[u8],
    ) -> Result<Vec<u8>, AllocError>
        ensures { IfOk result
            (λ text. StepComes fate self.old job house last.now text.items self.new) }
    {
        match fate {
            Fate::Done => say_line(alloc, job.number, last),
            Fate::Refused => say_last(alloc, &job, last),
            Fate::Spent => say_spent(alloc, &job),
            Fate::Again => self.plan_again(alloc, job, refusal_in(last)),
            Fate::Next => self.send_next(alloc, one_line_on(job), house),
        }
    }

    /// A house answered to a line of a plan.
    pub(crate) fn step_told(
        &mut self,
        alloc: Global,
        job: Job,
        house: HouseNo,
        last: &[u8],
    ) -> Result<Vec<u8>, AllocError>
        ensures { IfOk result
            (λ text. StepTold self.old job house last.now text.items self.new) }
    {
        let fate = fate_of(job.command.is_update(), last);
        self.step(alloc, fate, job, house, last)
    }

    /// The house of a line of a plan is not reached.
    pub(crate) fn step_down(&mut self, alloc: Global, job: Job) -> Result<Vec<u8>, AllocError>
        ensures { IfOk result (λ text. StepDown self.old job text.items self.new) }
    {
        let may_repeat = job.command.may_repeat();
        let job = with_doubt(job);
        if may_repeat {
            self.plan_again(alloc, job, DOWN)
        } else {
            say_last(alloc, &job, DOWN)
        }
    }

    // Goes on with a command that is tried once more; or ends it, if that was done often enough.
    fn try_again(&mut self, alloc: Global, job: Job, why: &[u8]) -> Result<Vec<u8>, AllocError>
        ensures { IfOk result (λ text. TriesAgain self.old job why.now text.items self.new) }
    {
        if MOST_TRIES <= job.sending.tries {
            say_last(alloc, &job, why)
        } else {
            self.go_on(alloc, job)
        }
    }

    // Works a plan out again, of what houses say now.
    fn plan_again(&mut self, alloc: Global, job: Job, why: &[u8]) -> Result<Vec<u8>, AllocError>
        ensures { IfOk result (λ text. PlansAgain self.old job why.now text.items self.new) }
    {
        self.root = None;
        self.try_again(alloc, again(alloc, job), why)
    }
}
