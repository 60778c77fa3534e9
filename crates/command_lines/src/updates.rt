// The words of an update.
ghost use Rattle.std.specs.Prelude.{◌≡◌, ◌++◌, ◌∷◌, OnOk};
ghost use Rattle.hex.specs.Hex.{encode_lower};
ghost use Rattle.cell_names.specs.FullNames.{full_name_octets};
ghost use Rattle.command_lines.specs.CommandTexts as text;
ghost use Rattle.script_answers.specs.Texts.{spaced};
ghost use Rattle.command_lines.specs.CommandTexts.{updated_words};

use crate::lines::push_word;
use attr_sets::Value;
use cds_stamps::{AttrName, SimpleName};
use cell_names::FullName;
use directory::Update;
use script_answers::push_hex;
use std::alloc::AllocError;

/// The first word of an update; none of a child, which no line makes.
pub(crate) fn update_word(update: &Update) -> &'static [u8]
    ensures { result.now ≡ text.update_word update.now }
{
    match update {
        Update::Create(_) => b"create",
        Update::MakeLink(_, _) => b"link",
        Update::MakeChild(_, _) => b"",
        Update::Delete(_) => b"delete",
        Update::Add(_, _, _) => b"add",
        Update::Remove(_, _, _) => b"remove",
        Update::Put(_, _, _) => b"put",
        Update::Clear(_, _) => b"clear",
        Update::Repoint(_, _) => b"",
    }
}

/// The words of an update after its directory.
pub(crate) fn push_updated(line: &mut Vec<u8>, update: &Update) -> Result<(), AllocError>
    ensures { OnOk result
        (line.new.items ≡ line.old.items ++ spaced (updated_words update.now)) }
{
    match update {
        Update::Create(name) => push_word(line, name.octets()),
        Update::MakeLink(name, target) => push_link(line, name, target),
        Update::MakeChild(_, _) => Ok(()),
        Update::Delete(name) => push_word(line, name.octets()),
        Update::Add(name, attr, value) => push_change(line, name, attr, value),
        Update::Remove(name, attr, value) => push_change(line, name, attr, value),
        Update::Put(name, attr, value) => push_change(line, name, attr, value),
        Update::Clear(name, attr) => push_attr(line, name, attr),
        Update::Repoint(_, _) => Ok(()),
    }
}

// A name, and the full name that it leads to.
fn push_link(line: &mut Vec<u8>, name: &SimpleName, target: &FullName) -> Result<(), AllocError>
    ensures { OnOk result
        (line.new.items
        ≡ line.old.items ++ (32 ∷ (name.now ++ (32 ∷ full_name_octets target.now)))) }
{
    push_word(line, name.octets())?;
    line.push(b' ')?;
    target.append_spelling(line)
}

// A name, and an attribute of it.
fn push_attr(line: &mut Vec<u8>, name: &SimpleName, attr: &AttrName) -> Result<(), AllocError>
    ensures { OnOk result
        (line.new.items ≡ line.old.items ++ (32 ∷ (name.now ++ (32 ∷ attr.now)))) }
{
    push_word(line, name.octets())?;
    push_word(line, attr.octets())
}

// A name, an attribute of it, and a value of that.
fn push_change(
    line: &mut Vec<u8>,
    name: &SimpleName,
    attr: &AttrName,
    value: &Value,
) -> Result<(), AllocError>
    ensures { OnOk result
        (line.new.items
        ≡ line.old.items
        ++ (32 ∷ (name.now ++ (32 ∷ (attr.now ++ (32 ∷ encode_lower value.now)))))) }
{
    push_attr(line, name, attr)?;
    line.push(b' ')?;
    push_hex(line, value.octets())
}
