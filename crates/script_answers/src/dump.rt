// The lines of a dump: what a house holds of a directory.
ghost use Rattle.std.specs.Prelude.{◌≡◌, ◌++◌, ◌∷◌, [], IfOk, OnOk, codes, decimal};
ghost use Rattle.script_answers.specs.Texts.{spaced, stamp_or, line_text, lines_text, member_letter, member_text, members_text, kind_word};
ghost use Rattle.script_answers.specs.Texts.{presence, dump_line, entry_line, attr_line, value_line, each_lines, value_lines, attr_lines};
ghost use Rattle.script_answers.specs.Texts.{entry_lines, dump_lines};

use crate::pieces::{
    begin_line, push_hex, push_number, push_spaced, push_spaced_stamp, push_spaced_stamp_or,
    push_word,
};
use attr_sets::{AttrCell, Value, ValueMap, ValueMark};
use cds_stamps::{AttrName, EpochNo, Member, MemberKind, Members, SimpleName, Stamp};
use directory::{AttrMap, EntryCell, Kind, Table};
use std::alloc::{AllocError, Global};

// The letter of a member's kind.
fn letter_of(kind: MemberKind) -> &'static [u8]
    ensures { result.now ≡ member_letter kind }
{
    match kind {
        MemberKind::Master => b"m",
        MemberKind::ReadOnly => b"r",
        MemberKind::Secondary => b"s",
    }
}

// A member after a space: its house, its since and its kind.
fn push_member(line: &mut Vec<u8>, member: &Member) -> Result<(), AllocError>
    ensures { OnOk result (line.new.items ≡ line.old.items ++ 32 ∷ member_text member.now) }
{
    push_spaced(line, u64::from(member.house.0))?;
    line.push(b':')?;
    push_number(line, member.since.0)?;
    line.push(b':')?;
    line.extend_from_slice(letter_of(member.kind))
}

// The members.
fn push_members(line: &mut Vec<u8>, members: &[Member]) -> Result<(), AllocError>
    ensures { OnOk result (line.new.items ≡ line.old.items ++ members_text members.now) }
{
    for member in members {
        push_member(line, member)?;
    }
    Ok(())
}

// AllUpTo, and the members.
fn push_state(
    line: &mut Vec<u8>,
    all_up_to: Option<Stamp>,
    members: &[Member],
) -> Result<(), AllocError>
    ensures { OnOk result (line.new.items ≡ line.old.items
        ++ (spaced (codes "allupto" ∷ stamp_or (codes "none") all_up_to ∷ codes "members" ∷ [])
        ++ members_text members.now)) }
{
    push_word(line, b"allupto")?;
    push_spaced_stamp_or(line, b"none", all_up_to)?;
    push_word(line, b"members")?;
    push_members(line, members)
}

// The first line of a dump: the epoch, AllUpTo and the members.
fn push_dump(
    line: &mut Vec<u8>,
    epoch: EpochNo,
    all_up_to: Option<Stamp>,
    members: &[Member],
) -> Result<(), AllocError>
    ensures { OnOk result
        (line.new.items ≡ line.old.items ++ dump_line epoch all_up_to members.now) }
{
    line.extend_from_slice(b"dump epoch")?;
    push_spaced(line, epoch.0)?;
    push_state(line, all_up_to, members)
}

// The word of an entry's kind.
fn word_of(kind: Kind) -> &'static [u8]
    ensures { result.now ≡ kind_word kind }
{
    match kind {
        Kind::Object => b"object",
        Kind::Link => b"link",
        Kind::Child => b"child",
    }
}

// Whether a value is present.
fn presence_of(present: bool) -> &'static [u8]
    ensures { result.now ≡ presence present }
{
    if present { b"present" } else { b"absent" }
}

// An entry: its name, its kind, its birth, and its death, if one is known.
fn push_entry(line: &mut Vec<u8>, name: &SimpleName, entry: &EntryCell) -> Result<(), AllocError>
    ensures { OnOk result (line.new.items ≡ line.old.items ++ entry_line name.now entry.now) }
{
    line.extend_from_slice(b"entry")?;
    push_word(line, name.octets())?;
    push_word(line, word_of(entry.kind))?;
    push_spaced_stamp(line, &entry.birth)?;
    push_spaced_stamp_or(line, b"live", entry.death)
}

// An attribute: its name, and its clear, if there was one.
fn push_attr(line: &mut Vec<u8>, name: &AttrName, cleared: Option<Stamp>) -> Result<(), AllocError>
    ensures { OnOk result (line.new.items ≡ line.old.items ++ attr_line name.now cleared) }
{
    line.extend_from_slice(b"attr")?;
    push_word(line, name.octets())?;
    push_spaced_stamp_or(line, b"none", cleared)
}

// A value, whether it is present, and since when.
fn push_value(line: &mut Vec<u8>, value: &Value, mark: &ValueMark) -> Result<(), AllocError>
    ensures { OnOk result (line.new.items ≡ line.old.items ++ value_line value.now mark.now) }
{
    line.extend_from_slice(b"value ")?;
    push_hex(line, value.octets())?;
    push_word(line, presence_of(mark.present))?;
    push_spaced_stamp(line, &mark.stamp)
}

// ---- whole lines

// The line of a value.
fn push_value_line(
    text: &mut Vec<u8>,
    number: u32,
    value: &Value,
    mark: &ValueMark,
) -> Result<(), AllocError>
    ensures { OnOk result
        (text.new.items ≡ text.old.items ++ line_text number (value_line value.now mark.now)) }
{
    begin_line(text, number)?;
    push_value(text, value, mark)?;
    text.push(b'\n')?;
    Ok(())
}

// The line of an attribute.
fn push_attr_line(
    text: &mut Vec<u8>,
    number: u32,
    name: &AttrName,
    cleared: Option<Stamp>,
) -> Result<(), AllocError>
    ensures { OnOk result
        (text.new.items ≡ text.old.items ++ line_text number (attr_line name.now cleared)) }
{
    begin_line(text, number)?;
    push_attr(text, name, cleared)?;
    text.push(b'\n')?;
    Ok(())
}

// The line of an entry.
fn push_entry_line(
    text: &mut Vec<u8>,
    number: u32,
    name: &SimpleName,
    entry: &EntryCell,
) -> Result<(), AllocError>
    ensures { OnOk result
        (text.new.items ≡ text.old.items ++ line_text number (entry_line name.now entry.now)) }
{
    begin_line(text, number)?;
    push_entry(text, name, entry)?;
    text.push(b'\n')?;
    Ok(())
}

// The first line of a dump.
fn push_dump_line(
    text: &mut Vec<u8>,
    number: u32,
    epoch: EpochNo,
    all_up_to: Option<Stamp>,
    members: &Members,
) -> Result<(), AllocError>
    ensures { OnOk result
        (text.new.items
        ≡ text.old.items ++ line_text number (dump_line epoch all_up_to members.now)) }
{
    begin_line(text, number)?;
    push_dump(text, epoch, all_up_to, members.list())?;
    text.push(b'\n')?;
    Ok(())
}

// The last line of a dump.
fn push_end(text: &mut Vec<u8>, number: u32) -> Result<(), AllocError>
    ensures { OnOk result (text.new.items ≡ text.old.items ++ line_text number (codes "end")) }
{
    begin_line(text, number)?;
    text.extend_from_slice(b"end\n")
}

// ---- all lines of a table

// The lines of an attribute's values.
fn push_values(text: &mut Vec<u8>, number: u32, values: &ValueMap) -> Result<(), AllocError>
    ensures { OnOk result
        (text.new.items ≡ text.old.items ++ lines_text number (each_lines value_lines values.now)) }
{
    for (value, mark) in values.iter() {
        push_value_line(text, number, value, mark)?;
    }
    Ok(())
}

// The lines of an attribute: its own, and those of its values.
fn push_attr_lines(
    text: &mut Vec<u8>,
    number: u32,
    name: &AttrName,
    cell: &AttrCell,
) -> Result<(), AllocError>
    ensures { OnOk result
        (text.new.items ≡ text.old.items ++ lines_text number (attr_lines name.now cell.now)) }
{
    push_attr_line(text, number, name, cell.cleared)?;
    push_values(text, number, &cell.values)
}

// The lines of an entry's attributes.
fn push_attrs(text: &mut Vec<u8>, number: u32, attrs: &AttrMap) -> Result<(), AllocError>
    ensures { OnOk result
        (text.new.items ≡ text.old.items ++ lines_text number (each_lines attr_lines attrs.now)) }
{
    for (name, cell) in attrs.iter() {
        push_attr_lines(text, number, name, cell)?;
    }
    Ok(())
}

// The lines of an entry: its own, and those of its attributes.
fn push_entry_lines(
    text: &mut Vec<u8>,
    number: u32,
    name: &SimpleName,
    entry: &EntryCell,
) -> Result<(), AllocError>
    ensures { OnOk result
        (text.new.items ≡ text.old.items ++ lines_text number (entry_lines name.now entry.now)) }
{
    push_entry_line(text, number, name, entry)?;
    push_attrs(text, number, &entry.attrs)
}

// The lines of a table's entries.
fn push_entries(text: &mut Vec<u8>, number: u32, table: &Table) -> Result<(), AllocError>
    ensures { OnOk result
        (text.new.items ≡ text.old.items ++ lines_text number (each_lines entry_lines table.now)) }
{
    for (name, entry) in table.iter() {
        push_entry_lines(text, number, name, entry)?;
    }
    Ok(())
}

/// The lines of a dump: the epoch, AllUpTo and the members, the entries of the table, and the end.
pub(crate) fn dump_text(
    alloc: Global,
    number: u32,
    epoch: EpochNo,
    all_up_to: Option<Stamp>,
    members: &Members,
    table: &Table,
) -> Result<Vec<u8>, AllocError>
    ensures { IfOk result
        (λ text. text.items
        ≡ lines_text number (dump_lines epoch all_up_to members.now table.now)) }
{
    let mut text = Vec::new(alloc);
    push_dump_line(&mut text, number, epoch, all_up_to, members)?;
    push_entries(&mut text, number, table)?;
    push_end(&mut text, number)?;
    Ok(text)
}
