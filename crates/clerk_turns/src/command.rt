// The commands of a clerk.
ghost use Rattle.std.specs.Prelude.{◌≡◌, ◌≤◌, codes};
ghost use Rattle.cds_stamps.specs.Outcomes.{Answers};
ghost use Rattle.cell_script.specs.Words.{words_of};
ghost use Rattle.clerk_turns.specs.ClerkRows.{command_said, said_by, said_of_inquiry, said_of_plan, said_of_update, said_of_value};
ghost use Rattle.clerk_turns.specs.Commands.{is_high, is_update, may_repeat};

use cds_clerk::{Listing, NamedUpdate, Plan};
use cds_stamps::{AllocOr, AttrName};
use cell_names::FullName;
use cell_script::{ParseFault, Parsed, Words};
use inquire_forms::{read_inquiry, read_most};
use server_entries::Wanted;
use std::alloc::Global;
use std::marker::Model;

/// How many bindings a batch of a look-up has at most: 1 to 65,535.
#[derive(Drop)]
pub struct BatchSize {
    most: u16,
}

impl Model for BatchSize {
    ghost use Rattle.std.specs.Prelude.{ℕ, ◌≤◌};

    ghost Value = { ℕ };

    ghost view = { λ v. v.most };

    ghost invariant = { λ v. 1 ≤ v.most };
}

impl BatchSize {
    // The size of so many.
    fn of(most: u16) -> BatchSize
        requires { 1 ≤ most }
        ensures { result ≡ most }
    {
        BatchSize { most }
    }

    /// How many bindings a batch has at most.
    pub fn most(&self) -> u16
        ensures is { result ≡ self.now }
        ensures some { 1 ≤ self.now }
    {
        self.most
    }
}

/// A command. Its fields are in the order of its words; a `bool` is the confidence, true for high.
#[derive(Drop)]
pub enum Command {
    Read(bool, FullName, AttrName),
    Readlink(bool, FullName),
    Import(bool, FullName, Wanted),
    Inquire(bool, FullName, Listing),
    Lookup(bool, FullName, Wanted, BatchSize),
    Plan(Plan),
    Update(FullName, NamedUpdate),
}

impl Command {
    /// Whether masters alone are trusted.
    pub fn is_high(&self) -> bool
        ensures { result ≡ is_high self.now }
    {
        match self {
            Command::Read(high, _, _) => *high,
            Command::Readlink(high, _) => *high,
            Command::Import(high, _, _) => *high,
            Command::Inquire(high, _, _) => *high,
            Command::Lookup(high, _, _, _) => *high,
            Command::Plan(_) | Command::Update(_, _) => true,
        }
    }

    /// Whether it is one update, whose answer is that of its house.
    pub(crate) fn is_update(&self) -> bool
        ensures { result ≡ is_update self.now }
    {
        match self {
            Command::Update(_, _) => true,
            _ => false,
        }
    }

    /// Whether its lines may be sent again if nobody knows whether they were done: so a second one
    /// takes away nothing that another client gave.
    pub(crate) fn may_repeat(&self) -> bool
        ensures { result ≡ may_repeat self.now }
    {
        match self {
            Command::Update(_, NamedUpdate::Delete) => false,
            Command::Update(_, NamedUpdate::Put(_, _)) => false,
            Command::Update(_, NamedUpdate::Clear(_)) => false,
            _ => true,
        }
    }
}

/// The command of a text, or its fault.
#[tactic(auto, unfolding(crate::specs::ClerkRows::command_said))]
pub fn parse_command(alloc: Global, text: &[u8]) -> Parsed<Command>
    ensures { Answers result (command_said (words_of text.now)) }
{
    let mut words = Words::of(text);
    match words.next() {
        Some(word) => said_by(alloc, word, &mut words),
        None => Err(AllocOr::Fault(ParseFault::UnknownCommand(1))),
    }
}

// What the words after the first one say.
#[tactic(auto, unfolding(crate::specs::ClerkRows::said_by))]
fn said_by(alloc: Global, word: &[u8], words: &mut Words<'_>) -> Parsed<Command>
    ensures { Answers result (said_by word.now words.old) }
{
    if word == b"read".as_slice() {
        return read(alloc, words);
    }
    if word == b"readlink".as_slice() {
        return readlink(alloc, words);
    }
    if word == b"import".as_slice() {
        return import(alloc, words);
    }
    said_of_inquiry(alloc, word, words)
}

#[tactic(auto, unfolding(crate::specs::ClerkRows::said_by))]
fn read(alloc: Global, words: &mut Words<'_>) -> Parsed<Command>
    ensures { Answers result (said_by (codes "read") words.old) }
{
    words.exactly(3)?;
    Ok(Command::Read(
        words.confidence()?,
        words.full_name(alloc)?,
        words.attr_name(alloc)?,
    ))
}

#[tactic(auto, unfolding(crate::specs::ClerkRows::said_by))]
fn readlink(alloc: Global, words: &mut Words<'_>) -> Parsed<Command>
    ensures { Answers result (said_by (codes "readlink") words.old) }
{
    words.exactly(2)?;
    Ok(Command::Readlink(words.confidence()?, words.full_name(alloc)?))
}

#[tactic(auto, unfolding(crate::specs::ClerkRows::said_by))]
fn import(alloc: Global, words: &mut Words<'_>) -> Parsed<Command>
    ensures { Answers result (said_by (codes "import") words.old) }
{
    words.exactly(5)?;
    let high = words.confidence()?;
    let name = words.full_name(alloc)?;
    let interface = words.interface()?;
    let object = words.object()?;
    let (tcp, udp) = words.protocols()?;
    Ok(Command::Import(
        high,
        name,
        Wanted {
            interface,
            object,
            tcp,
            udp,
        },
    ))
}

// What they say if the command is an inquiry, or of a later kind.
#[tactic(auto, unfolding(crate::specs::ClerkRows::said_of_inquiry))]
fn said_of_inquiry(alloc: Global, word: &[u8], words: &mut Words<'_>) -> Parsed<Command>
    ensures { Answers result (said_of_inquiry word.now words.old) }
{
    if word == b"grouplist".as_slice() {
        return grouplist(alloc, words);
    }
    if word == b"entrylist".as_slice() {
        return entrylist(alloc, words);
    }
    if word == b"lookup".as_slice() {
        return lookup(alloc, words);
    }
    if word == b"proflist".as_slice() {
        return proflist(alloc, words);
    }
    said_of_plan(alloc, word, words)
}

#[tactic(auto, unfolding(crate::specs::ClerkRows::said_of_inquiry))]
fn grouplist(alloc: Global, words: &mut Words<'_>) -> Parsed<Command>
    ensures { Answers result (said_of_inquiry (codes "grouplist") words.old) }
{
    words.exactly(2)?;
    let high = words.confidence()?;
    let name = words.full_name(alloc)?;
    Ok(Command::Inquire(high, name, Listing::Members))
}

#[tactic(auto, unfolding(crate::specs::ClerkRows::said_of_inquiry))]
fn entrylist(alloc: Global, words: &mut Words<'_>) -> Parsed<Command>
    ensures { Answers result (said_of_inquiry (codes "entrylist") words.old) }
{
    words.exactly(2)?;
    let high = words.confidence()?;
    let name = words.full_name(alloc)?;
    Ok(Command::Inquire(high, name, Listing::Entry))
}

#[tactic(auto, unfolding(crate::specs::ClerkRows::said_of_inquiry, crate::specs::ClerkRows::proflist_said))]
fn proflist(alloc: Global, words: &mut Words<'_>) -> Parsed<Command>
    ensures { Answers result (said_of_inquiry (codes "proflist") words.old) }
{
    words.exactly(6)?;
    let high = words.confidence()?;
    let name = words.full_name(alloc)?;
    let inquiry = read_inquiry(alloc, words)?;
    Ok(Command::Inquire(high, name, Listing::Elements(inquiry)))
}

#[tactic(auto, unfolding(crate::specs::ClerkRows::said_of_inquiry))]
fn lookup(alloc: Global, words: &mut Words<'_>) -> Parsed<Command>
    ensures { Answers result (said_of_inquiry (codes "lookup") words.old) }
{
    words.exactly(6)?;
    let high = words.confidence()?;
    let name = words.full_name(alloc)?;
    let interface = words.interface()?;
    let object = words.object()?;
    let (tcp, udp) = words.protocols()?;
    let most = read_most(words)?;
    let wanted = Wanted {
        interface,
        object,
        tcp,
        udp,
    };
    Ok(Command::Lookup(high, name, wanted, BatchSize::of(most)))
}

// What they say if the command changes what servers export, or a group, or a profile; or of a later
// kind.
#[tactic(auto, unfolding(crate::specs::ClerkRows::said_of_plan))]
fn said_of_plan(alloc: Global, word: &[u8], words: &mut Words<'_>) -> Parsed<Command>
    ensures { Answers result (said_of_plan word.now words.old) }
{
    if word == b"export".as_slice() {
        return export(alloc, words);
    }
    if word == b"unexport".as_slice() {
        return unexport(alloc, words);
    }
    if word == b"groupadd".as_slice() {
        return groupadd(alloc, words);
    }
    if word == b"groupdel".as_slice() {
        return groupdel(alloc, words);
    }
    if word == b"profadd".as_slice() {
        return profadd(alloc, words);
    }
    if word == b"profdel".as_slice() {
        return profdel(alloc, words);
    }
    said_of_update(alloc, word, words)
}

#[tactic(auto, unfolding(crate::specs::ClerkRows::said_of_plan))]
fn export(alloc: Global, words: &mut Words<'_>) -> Parsed<Command>
    ensures { Answers result (said_of_plan (codes "export") words.old) }
{
    words.exactly(4)?;
    Ok(Command::Plan(Plan::Export(
        words.full_name(alloc)?,
        words.interface()?,
        words.bindings(alloc)?,
        words.objects(alloc)?,
    )))
}

#[tactic(auto, unfolding(crate::specs::ClerkRows::said_of_plan))]
fn unexport(alloc: Global, words: &mut Words<'_>) -> Parsed<Command>
    ensures { Answers result (said_of_plan (codes "unexport") words.old) }
{
    words.exactly(3)?;
    Ok(Command::Plan(Plan::Unexport(
        words.full_name(alloc)?,
        words.interface_or_none()?,
        words.objects(alloc)?,
    )))
}

#[tactic(auto, unfolding(crate::specs::ClerkRows::said_of_plan))]
fn groupadd(alloc: Global, words: &mut Words<'_>) -> Parsed<Command>
    ensures { Answers result (said_of_plan (codes "groupadd") words.old) }
{
    words.exactly(2)?;
    Ok(Command::Plan(Plan::Groupadd(words.full_name(alloc)?, words.full_name(alloc)?)))
}

#[tactic(auto, unfolding(crate::specs::ClerkRows::said_of_plan))]
fn groupdel(alloc: Global, words: &mut Words<'_>) -> Parsed<Command>
    ensures { Answers result (said_of_plan (codes "groupdel") words.old) }
{
    words.exactly(2)?;
    Ok(Command::Plan(Plan::Groupdel(words.full_name(alloc)?, words.full_name(alloc)?)))
}

#[tactic(auto, unfolding(crate::specs::ClerkRows::said_of_plan))]
fn profadd(alloc: Global, words: &mut Words<'_>) -> Parsed<Command>
    ensures { Answers result (said_of_plan (codes "profadd") words.old) }
{
    words.exactly(5)?;
    Ok(Command::Plan(Plan::Profadd(
        words.full_name(alloc)?,
        words.element_interface()?,
        words.full_name(alloc)?,
        words.priority()?,
        words.note(alloc)?,
    )))
}

#[tactic(auto, unfolding(crate::specs::ClerkRows::said_of_plan))]
fn profdel(alloc: Global, words: &mut Words<'_>) -> Parsed<Command>
    ensures { Answers result (said_of_plan (codes "profdel") words.old) }
{
    words.exactly(3)?;
    Ok(Command::Plan(Plan::Profdel(
        words.full_name(alloc)?,
        words.element_interface()?,
        words.full_name(alloc)?,
    )))
}

// What they say if the command makes or deletes an entry, or of a later kind.
#[tactic(auto, unfolding(crate::specs::ClerkRows::said_of_update))]
fn said_of_update(alloc: Global, word: &[u8], words: &mut Words<'_>) -> Parsed<Command>
    ensures { Answers result (said_of_update word.now words.old) }
{
    if word == b"create".as_slice() {
        return create(alloc, words);
    }
    if word == b"link".as_slice() {
        return link(alloc, words);
    }
    if word == b"delete".as_slice() {
        return delete(alloc, words);
    }
    said_of_value(alloc, word, words)
}

#[tactic(auto, unfolding(crate::specs::ClerkRows::said_of_update))]
fn create(alloc: Global, words: &mut Words<'_>) -> Parsed<Command>
    ensures { Answers result (said_of_update (codes "create") words.old) }
{
    words.exactly(1)?;
    Ok(Command::Update(words.full_name(alloc)?, NamedUpdate::Create))
}

#[tactic(auto, unfolding(crate::specs::ClerkRows::said_of_update))]
fn link(alloc: Global, words: &mut Words<'_>) -> Parsed<Command>
    ensures { Answers result (said_of_update (codes "link") words.old) }
{
    words.exactly(2)?;
    let name = words.full_name(alloc)?;
    let target = words.full_name(alloc)?;
    Ok(Command::Update(name, NamedUpdate::Link(target)))
}

#[tactic(auto, unfolding(crate::specs::ClerkRows::said_of_update))]
fn delete(alloc: Global, words: &mut Words<'_>) -> Parsed<Command>
    ensures { Answers result (said_of_update (codes "delete") words.old) }
{
    words.exactly(1)?;
    Ok(Command::Update(words.full_name(alloc)?, NamedUpdate::Delete))
}

// What they say if the command changes the values of an entry.
#[tactic(auto, unfolding(crate::specs::ClerkRows::said_of_value))]
fn said_of_value(alloc: Global, word: &[u8], words: &mut Words<'_>) -> Parsed<Command>
    ensures { Answers result (said_of_value word.now words.old) }
{
    if word == b"add".as_slice() {
        return add(alloc, words);
    }
    if word == b"remove".as_slice() {
        return remove(alloc, words);
    }
    if word == b"put".as_slice() {
        return put(alloc, words);
    }
    if word == b"clear".as_slice() {
        return clear(alloc, words);
    }
    Err(AllocOr::Fault(ParseFault::UnknownCommand(1)))
}

#[tactic(auto, unfolding(crate::specs::ClerkRows::said_of_value))]
fn add(alloc: Global, words: &mut Words<'_>) -> Parsed<Command>
    ensures { Answers result (said_of_value (codes "add") words.old) }
{
    words.exactly(3)?;
    let name = words.full_name(alloc)?;
    let attr = words.attr_name(alloc)?;
    let value = words.value(alloc)?;
    Ok(Command::Update(name, NamedUpdate::Add(attr, value)))
}

#[tactic(auto, unfolding(crate::specs::ClerkRows::said_of_value))]
fn remove(alloc: Global, words: &mut Words<'_>) -> Parsed<Command>
    ensures { Answers result (said_of_value (codes "remove") words.old) }
{
    words.exactly(3)?;
    let name = words.full_name(alloc)?;
    let attr = words.attr_name(alloc)?;
    let value = words.value(alloc)?;
    Ok(Command::Update(name, NamedUpdate::Remove(attr, value)))
}

#[tactic(auto, unfolding(crate::specs::ClerkRows::said_of_value))]
fn put(alloc: Global, words: &mut Words<'_>) -> Parsed<Command>
    ensures { Answers result (said_of_value (codes "put") words.old) }
{
    words.exactly(3)?;
    let name = words.full_name(alloc)?;
    let attr = words.attr_name(alloc)?;
    let value = words.value(alloc)?;
    Ok(Command::Update(name, NamedUpdate::Put(attr, value)))
}

#[tactic(auto, unfolding(crate::specs::ClerkRows::said_of_value))]
fn clear(alloc: Global, words: &mut Words<'_>) -> Parsed<Command>
    ensures { Answers result (said_of_value (codes "clear") words.old) }
{
    words.exactly(2)?;
    let name = words.full_name(alloc)?;
    let attr = words.attr_name(alloc)?;
    Ok(Command::Update(name, NamedUpdate::Clear(attr)))
}
