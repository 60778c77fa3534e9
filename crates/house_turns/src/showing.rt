// What shows of a name, how a directory is, and which directories a house has.
ghost use Rattle.std.specs.Prelude.{◌≡◌, ◌&&◌, ◌==◌, not, ◌∷◌, [], ◌++◌, map as list_map, codes, decimal, IfOk, OnOk, Some};
ghost use Rattle.std.specs.List.{flat_map};
ghost use Rattle.std.specs.Option.{option_map_or};
ghost use Rattle.std.specs.FinMap as map;
ghost use Rattle.script_answers.specs.Texts.{each_lines, kind_word, line_text, lines_text, member_letter, member_text, members_text, stamp_or};
ghost use Rattle.attr_sets.specs.AttributeCells.{cell_values};
ghost use Rattle.cds_stamps.specs.Members.{master_of, members_of};
ghost use Rattle.cell_names.specs.ChildPointers.{pointer_in, pointer_of};
ghost use Rattle.directory.specs.Shown.{face_of, lead_of};
ghost use Rattle.skulk_core.specs.MasterRounds.{running_stamp};
ghost use Rattle.house_turns.specs.LineOutcomes.{Tells};
ghost use Rattle.house_turns.specs.PostTexts.{octets_line};
ghost use Rattle.house_turns.specs.PrivateTurns.{Says};
ghost use Rattle.house_turns.specs.Showings.{attr_shown, directories_said, directory_line, entry_said, entry_shown, lead_line, lead_words, pointer_words, show_said, state_words, status_line, status_said};

use crate::asking::held;
use crate::said::{Said, refused};
use crate::texts::{push_end, push_octets};
use attr_sets::{AttrCell, Value};
use cds_stamps::{AllocOr, AttrName, DirId, HouseNo, Member, MemberKind, SimpleName, Stamp};
use cell_names::ChildPointer;
use clearinghouse::{Clearinghouse, DirState, DirStates, Held};
use directory::{AttrMap, EntryCell, Kind};
use script_answers::{ScriptRefusal, begin_line, push_number, push_stamp_or};
use skulk_core::Skulk;
use std::alloc::{AllocError, Global};

// ---- what shows of a name

// The word of an entry's kind.
fn word_of(kind: Kind) -> &'static [u8]
    ensures { result.now ≡ kind_word kind }
{
    match kind {
        Kind::Object => b"object",
        Kind::Link => b"link",
        Kind::Child => b"child",
    }
}

// Adds a number after a space.
fn push_spaced(text: &mut Vec<u8>, number: u64) -> Result<(), AllocError>
    ensures { OnOk result (text.new.items ≡ text.old.items ++ 32 ∷ decimal number) }
{
    text.push(b' ')?;
    push_number(text, number)
}

// Adds the numbers of houses, each after a space.
fn push_houses(text: &mut Vec<u8>, houses: &[HouseNo]) -> Result<(), AllocError>
    ensures { OnOk result
        (text.new.items ≡ text.old.items ++ flat_map (λ h. 32 ∷ decimal h.0) houses.now) }
{
    for house in houses {
        push_spaced(text, u64::from(house.0))?;
    }
    Ok(())
}

// Adds the directory of a child, and its houses.
fn push_places(text: &mut Vec<u8>, pointer: &ChildPointer) -> Result<(), AllocError>
    ensures { OnOk result
        (text.new.items ≡ text.old.items ++ pointer_words (Some (pointer_in pointer.now))) }
{
    push_spaced(text, u64::from(pointer.dir.0))?;
    push_spaced(text, u64::from(pointer.houses.master().0))?;
    push_houses(text, pointer.houses.others())?;
    Ok(())
}

// Adds where a child leads.
fn push_pointer(alloc: Global, text: &mut Vec<u8>, octets: &[u8]) -> Result<(), AllocError>
    ensures { OnOk result
        (text.new.items ≡ text.old.items ++ pointer_words (pointer_of octets.now)) }
{
    match ChildPointer::read(alloc, octets) {
        Ok(pointer) => push_places(text, &pointer),
        Err(AllocOr::Fault(_)) => Ok(()),
        Err(AllocOr::OutOfMemory) => Err(AllocError),
    }
}

// Adds where an entry of this kind leads.
fn push_lead(alloc: Global, text: &mut Vec<u8>, kind: Kind, octets: &[u8]) -> Result<(), AllocError>
    ensures { OnOk result (text.new.items ≡ text.old.items ++ lead_words kind octets.now) }
{
    match kind {
        Kind::Object => Ok(()),
        Kind::Link => {
            text.push(b' ')?;
            text.extend_from_slice(octets)
        }
        Kind::Child => push_pointer(alloc, text, octets),
    }
}

// Adds where an entry leads, if it leads anywhere.
fn push_led(alloc: Global, text: &mut Vec<u8>, entry: &EntryCell) -> Result<(), AllocError>
    ensures { OnOk result (text.new.items ≡ text.old.items
        ++ option_map_or (lead_words entry.now.kind) (lead_of (face_of entry.now)) []) }
{
    match entry.lead() {
        Some(value) => push_lead(alloc, text, entry.kind, value.octets()),
        None => Ok(()),
    }
}

// Adds the line of an entry's kind, and of where it leads.
fn push_lead_line(
    alloc: Global,
    text: &mut Vec<u8>,
    number: u32,
    entry: &EntryCell,
) -> Result<(), AllocError>
    ensures { OnOk result
        (text.new.items ≡ text.old.items ++ line_text number (lead_line entry.now)) }
{
    begin_line(text, number)?;
    text.extend_from_slice(word_of(entry.kind))?;
    push_led(alloc, text, entry)?;
    text.push(b'\n')?;
    Ok(())
}

/// Adds the lines of values.
pub(crate) fn push_values(
    text: &mut Vec<u8>,
    number: u32,
    values: &[Value],
) -> Result<(), AllocError>
    ensures { OnOk result (text.new.items ≡ text.old.items
        ++ lines_text number (list_map (octets_line (codes "value ")) values.now)) }
{
    for value in values {
        push_octets(text, number, b"value ", value.octets())?;
    }
    Ok(())
}

// Adds the line of an attribute's name.
fn push_attr_line(text: &mut Vec<u8>, number: u32, name: &AttrName) -> Result<(), AllocError>
    ensures { OnOk result
        (text.new.items ≡ text.old.items ++ line_text number (codes "attr " ++ name.now)) }
{
    begin_line(text, number)?;
    text.extend_from_slice(b"attr ")?;
    text.extend_from_slice(name.octets())?;
    text.push(b'\n')?;
    Ok(())
}

// Adds the lines of an attribute with these values, if there are any.
fn push_shown(
    text: &mut Vec<u8>,
    number: u32,
    name: &AttrName,
    values: &[Value],
) -> Result<(), AllocError>
    ensures { OnOk result
        (text.new.items ≡ text.old.items ++ lines_text number (attr_shown name.now values.now)) }
{
    if values.is_empty() {
        return Ok(());
    }
    push_attr_line(text, number, name)?;
    push_values(text, number, values)?;
    Ok(())
}

// Adds the lines of an attribute, if it has values.
fn push_attr(
    alloc: Global,
    text: &mut Vec<u8>,
    number: u32,
    name: &AttrName,
    cell: &AttrCell,
) -> Result<(), AllocError>
    ensures { OnOk result (text.new.items
        ≡ text.old.items ++ lines_text number (attr_shown name.now (cell_values cell.now))) }
{
    let values = cell.present_values(alloc)?;
    push_shown(text, number, name, &values)
}

// Adds the lines of all attributes that have values.
fn push_attrs(
    alloc: Global,
    text: &mut Vec<u8>,
    number: u32,
    attrs: &AttrMap,
) -> Result<(), AllocError>
    ensures { OnOk result (text.new.items ≡ text.old.items
        ++ lines_text number (each_lines (λ n c. attr_shown n (cell_values c)) attrs.now)) }
{
    for (name, cell) in attrs.iter() {
        push_attr(alloc, text, number, name, cell)?;
    }
    Ok(())
}

// Adds the last line of an entry.
fn push_last_line(text: &mut Vec<u8>, number: u32) -> Result<(), AllocError>
    ensures { OnOk result (text.new.items ≡ text.old.items ++ line_text number (codes "end")) }
{
    begin_line(text, number)?;
    text.extend_from_slice(b"end\n")
}

// The lines of an entry that shows.
fn entry_told(alloc: Global, number: u32, entry: &EntryCell) -> Result<Said, AllocError>
    ensures { IfOk result (λ s. Says number s (Tells (entry_shown entry.now))) }
{
    let mut text = Vec::new(alloc);
    push_lead_line(alloc, &mut text, number, entry)?;
    push_attrs(alloc, &mut text, number, &entry.attrs)?;
    push_last_line(&mut text, number)?;
    Ok(Said::Told(text))
}

// What shows of a name in a directory that is held.
#[tactic(auto, using(crate::proofs::Shows::entry_shows, crate::proofs::Shows::none_shows))]
fn show_held(alloc: Global, number: u32, held: &Held, name: &SimpleName) -> Result<Said, AllocError>
    ensures { IfOk result
        (λ s. Says number s (Tells (entry_said (map.get held.now.replica.table name.now)))) }
{
    match held.replica.table.live(name) {
        Some(entry) => entry_told(alloc, number, entry),
        None => refused(alloc, number, ScriptRefusal::NoSuchEntry),
    }
}

// Whether another house answers, since it is the master that is wanted.
fn is_elsewhere(home: &Clearinghouse, high: bool, held: &Held) -> bool
    ensures { result
        ≡ (high && not (master_of (members_of held.now.members) == home.now.house.0)) }
{
    high && held.members.master() != home.number()
}

/// What shows of a name; at `high` the master alone says it.
#[tactic(auto, using(crate::proofs::Shows::show_absent, crate::proofs::Shows::show_other, crate::proofs::Shows::show_here))]
pub(crate) fn show(
    alloc: Global,
    home: &Clearinghouse,
    number: u32,
    high: bool,
    dir: DirId,
    name: &SimpleName,
) -> Result<Said, AllocError>
    ensures { IfOk result (λ s. Says number s
        (Tells (show_said home.now.house.0 high name.now (map.get home.now.dirs dir)))) }
{
    let Some(held) = held(home, dir) else {
        return refused(alloc, number, ScriptRefusal::NoReplica);
    };
    if is_elsewhere(home, high, held) {
        return refused(alloc, number, ScriptRefusal::NotMaster);
    }
    show_held(alloc, number, held, name)
}

// ---- how a directory is

// The letter of a member's kind.
fn letter_of(kind: MemberKind) -> u8
    ensures { result ∷ [] ≡ member_letter kind }
{
    match kind {
        MemberKind::Master => b'm',
        MemberKind::ReadOnly => b'r',
        MemberKind::Secondary => b's',
    }
}

// Adds a member after a space: its house, its since and its kind.
fn push_member(text: &mut Vec<u8>, member: &Member) -> Result<(), AllocError>
    ensures { OnOk result (text.new.items ≡ text.old.items ++ 32 ∷ member_text member.now) }
{
    push_spaced(text, u64::from(member.house.0))?;
    text.push(b':')?;
    push_number(text, member.since.0)?;
    text.push(b':')?;
    text.push(letter_of(member.kind))?;
    Ok(())
}

// Adds members.
fn push_members(text: &mut Vec<u8>, members: &[Member]) -> Result<(), AllocError>
    ensures { OnOk result (text.new.items ≡ text.old.items ++ members_text members.now) }
{
    for member in members {
        push_member(text, member)?;
    }
    Ok(())
}

// The stamp of a skulk that runs.
fn stamp_of(skulk: Skulk) -> Option<Stamp>
    ensures { result ≡ running_stamp skulk }
{
    match skulk {
        Skulk::Idle => None,
        Skulk::Gathering { t, .. } | Skulk::Spreading { t, .. } => Some(t),
    }
}

// Adds a word, and a number. The word ends in a space.
fn push_counted(text: &mut Vec<u8>, word: &[u8], number: u64) -> Result<(), AllocError>
    ensures { OnOk result (text.new.items ≡ text.old.items ++ (word.now ++ decimal number)) }
{
    text.extend_from_slice(word)?;
    push_number(text, number)
}

// Adds a word, and a stamp or `none`. The word ends in a space.
fn push_stamped(text: &mut Vec<u8>, word: &[u8], stamp: Option<Stamp>) -> Result<(), AllocError>
    ensures { OnOk result
        (text.new.items ≡ text.old.items ++ (word.now ++ stamp_or (codes "none") stamp)) }
{
    text.extend_from_slice(word)?;
    push_stamp_or(text, b"none", stamp)
}

// Adds what a house says of a directory that it holds.
fn push_status(text: &mut Vec<u8>, held: &Held) -> Result<(), AllocError>
    ensures { OnOk result (text.new.items ≡ text.old.items ++ status_line held.now) }
{
    push_counted(text, b"ok epoch ", held.epoch.0)?;
    push_stamped(text, b" allupto ", held.replica.all_up_to)?;
    push_stamped(text, b" skulk ", stamp_of(held.skulk))?;
    push_counted(text, b" entries ", held.replica.table.live_entries())?;
    text.extend_from_slice(b" members")?;
    push_members(text, held.members.list())?;
    Ok(())
}

// How a directory is that is held.
fn status_told(alloc: Global, number: u32, held: &Held) -> Result<Said, AllocError>
    ensures { IfOk result (λ s. Says number s (Tells (status_line held.now ∷ []))) }
{
    let mut text = Vec::new(alloc);
    begin_line(&mut text, number)?;
    push_status(&mut text, held)?;
    text.push(b'\n')?;
    Ok(Said::Told(text))
}

/// How a directory is, without its entries.
#[tactic(auto, using(crate::proofs::Shows::status_absent, crate::proofs::Shows::status_held))]
pub(crate) fn status(
    alloc: Global,
    home: &Clearinghouse,
    number: u32,
    dir: DirId,
) -> Result<Said, AllocError>
    ensures { IfOk result (λ s. Says number s (Tells (status_said (map.get home.now.dirs dir)))) }
{
    match held(home, dir) {
        Some(held) => status_told(alloc, number, held),
        None => refused(alloc, number, ScriptRefusal::NoReplica),
    }
}

// ---- which directories a house has

// Adds the epoch in which a house holds a directory, or in which it left.
fn push_state(text: &mut Vec<u8>, state: &DirState) -> Result<(), AllocError>
    ensures { OnOk result (text.new.items ≡ text.old.items ++ state_words state.now) }
{
    match state {
        DirState::Held(held) => {
            text.extend_from_slice(b" held ")?;
            push_number(text, held.epoch.0)
        }
        DirState::Gone(epoch) => {
            text.extend_from_slice(b" gone ")?;
            push_number(text, epoch.0)
        }
    }
}

// Adds the line of a directory.
fn push_directory(
    text: &mut Vec<u8>,
    number: u32,
    dir: DirId,
    state: &DirState,
) -> Result<(), AllocError>
    ensures { OnOk result
        (text.new.items ≡ text.old.items ++ line_text number (directory_line (dir, state.now))) }
{
    begin_line(text, number)?;
    text.extend_from_slice(b"directory ")?;
    push_number(text, u64::from(dir.0))?;
    push_state(text, state)?;
    text.push(b'\n')?;
    Ok(())
}

// Adds the lines of directories, and how many they are.
fn push_directories(text: &mut Vec<u8>, number: u32, states: &DirStates) -> Result<(), AllocError>
    ensures { OnOk result (text.new.items
        ≡ text.old.items ++ lines_text number (directories_said (map.entries states.now))) }
{
    for (dir, state) in states.iter() {
        push_directory(text, number, *dir, state)?;
    }
    push_end(text, number, states.len())?;
    Ok(())
}

/// The directories that a house has or has left, ascending.
pub(crate) fn directories(
    alloc: Global,
    home: &Clearinghouse,
    number: u32,
) -> Result<Said, AllocError>
    ensures { IfOk result
        (λ s. Says number s (Tells (directories_said (map.entries home.now.dirs)))) }
{
    let mut text = Vec::new(alloc);
    push_directories(&mut text, number, home.states())?;
    Ok(Said::Told(text))
}
