// The parts of the script of `load`, by what they do before their messages are delivered and lost.
ghost use Rattle.std.specs.Prelude.{◌≡◌, ◌≢◌, ◌<◌, ◌≤◌, [], ◌∷◌, Some, true, IsTrue, MatchBool, IfOk, slice_get, drop};
ghost use Rattle.cell_script.specs.Generated as script;
ghost use Rattle.cell_script.specs.Generated.{drawn_change, drawn_entry, drawn_value};
ghost use Rattle.cell_script.specs.PrivateGenerated.{commands_of};
ghost use Rattle.cell_script.specs.PrivateWorks.{is_work};

use crate::command::Command;
use crate::lists::{Listed, Listeds};
use attr_sets::Value;
use cds_stamps::{AttrName, DirId, HouseNo, Node, SimpleName};
use directory::Update;
use std::alloc::{AllocError, Global};

// The master of the directory.
const MASTER: HouseNo = HouseNo(1);

/// What is still to be done of a part, before its messages are delivered and lost.
#[derive(Clone, Copy)]
pub(crate) enum Work {
    /// Houses are made from this one on, and then the root directory.
    Houses(u8),
    Create(u8),
    Add(u8, u8),
    Remove(u8, u8),
    /// An entry is deleted, and made again.
    Renew(u8),
    Skulk,
    Nothing,
}

// The name of an entry: `e` and its number.
fn entry_name(alloc: Global, entry: u8) -> Result<SimpleName, AllocError>
    requires { entry < 16 }
    ensures { IfOk result (λ name. name ≡ script.entry_name entry) }
{
    if entry < 10 {
        SimpleName::known(alloc, &[b'e', b'0' + entry])
    } else {
        SimpleName::known(alloc, &[b'e', b'1', b'0' + (entry - 10)])
    }
}

// A read-only house of a replica set.
fn reader(house: u8) -> Listed
    ensures { result ≡ script.reader house }
{
    Listed {
        house: HouseNo(house),
        secondary: false,
    }
}

// A house, or the root directory after the last house.
fn house_made(alloc: Global, house: u8) -> Result<Command, AllocError>
    requires { house ≤ 4 }
    ensures { IfOk result (λ c. Some c ≡ slice_get (commands_of (Work.Houses house)) 0) }
{
    if house < 4 {
        let node = Node::new(u64::from(house)).unwrap();
        return Ok(Command::House(HouseNo(house), node));
    }
    let mut others = Vec::new(alloc);
    others.push(reader(2))?;
    others.push(reader(3))?;
    Ok(Command::Root(MASTER, Listeds::of(alloc, others)?))
}

// An update of the directory at its master.
fn updated(update: Update) -> Command
    ensures { result ≡ script.updated update }
{
    Command::Update(MASTER, DirId::ROOT, update)
}

fn entry_made(alloc: Global, entry: u8) -> Result<Command, AllocError>
    requires { entry < 16 }
    ensures { IfOk result (λ c. c ≡ script.entry_made entry) }
{
    Ok(updated(Update::Create(entry_name(alloc, entry)?)))
}

fn entry_deleted(alloc: Global, entry: u8) -> Result<Command, AllocError>
    requires { entry < 16 }
    ensures { IfOk result (λ c. c ≡ script.entry_deleted entry) }
{
    Ok(updated(Update::Delete(entry_name(alloc, entry)?)))
}

fn value_added(alloc: Global, entry: u8, value: u8) -> Result<Command, AllocError>
    requires { entry < 16 }
    ensures { IfOk result (λ c. c ≡ script.value_added entry value) }
{
    Ok(updated(Update::Add(
        entry_name(alloc, entry)?,
        AttrName::known(alloc, b"A")?,
        Value::known(alloc, &[value])?,
    )))
}

fn value_removed(alloc: Global, entry: u8, value: u8) -> Result<Command, AllocError>
    requires { entry < 16 }
    ensures { IfOk result (λ c. c ≡ script.value_removed entry value) }
{
    Ok(updated(Update::Remove(
        entry_name(alloc, entry)?,
        AttrName::known(alloc, b"A")?,
        Value::known(alloc, &[value])?,
    )))
}

impl Work {
    /// The first of its commands.
    pub(crate) fn command(self, alloc: Global) -> Result<Option<Command>, AllocError>
        requires { IsTrue (is_work self) }
        ensures { IfOk result (λ c. c ≡ slice_get (commands_of self) 0) }
    {
        let command = match self {
            Work::Houses(house) => house_made(alloc, house)?,
            Work::Create(entry) => entry_made(alloc, entry)?,
            Work::Add(entry, value) => value_added(alloc, entry, value)?,
            Work::Remove(entry, value) => value_removed(alloc, entry, value)?,
            Work::Renew(entry) => entry_deleted(alloc, entry)?,
            Work::Skulk => Command::Skulk(MASTER, DirId::ROOT),
            Work::Nothing => return Ok(None),
        };
        Ok(Some(command))
    }

    /// What is to be done after it.
    pub(crate) fn rest(self) -> Work
        requires { IsTrue (is_work self) }
        ensures commands { commands_of result ≡ drop 1 (commands_of self) }
        ensures sound { IsTrue (is_work result) }
    {
        match self {
            Work::Houses(house) if house < 4 => Work::Houses(house + 1),
            Work::Renew(entry) => Work::Create(entry),
            _ => Work::Nothing,
        }
    }

    pub(crate) fn is_over(self) -> bool
        ensures { MatchBool result (commands_of self ≡ []) (commands_of self ≢ []) }
    {
        matches!(self, Work::Nothing)
    }
}

/// What a number says of its round, where a value is changed.
pub(crate) fn value_changed(draw: u64) -> Work
    requires { drawn_change draw < 7 }
    ensures commands { commands_of result
        ≡ script.value_changed (drawn_change draw) (drawn_entry draw) (drawn_value draw) ∷ [] }
    ensures sound { IsTrue (is_work result) }
{
    let entry = (draw / 256 % 16) as u8;
    let value = (draw / 256 / 16 % 256) as u8;
    if draw / 256 / 4096 % 8 < 5 {
        Work::Add(entry, value)
    } else {
        Work::Remove(entry, value)
    }
}

/// The number after this one.
pub(crate) fn next_draw(draw: u64) -> u64
    requires { draw < 2147483648 }
    ensures next { result ≡ script.next_draw draw }
    ensures small { result < 2147483648 }
{
    (draw * 1_103_515_245 + 12_345) % 2_147_483_648
}

/// Whether a skulk comes after a round.
pub(crate) fn ends_with_skulk(last: u32, round: u32) -> bool
    ensures { result ≡ script.ends_with_skulk last round }
{
    round % 32 == 0 || round == last
}
