// What a clerk writes.
ghost use Rattle.std.specs.Prelude.{◌≡◌, [], ◌∷◌, ◌++◌, OnOk, decimal};
ghost use Rattle.clerk_lines.specs.ClerkTexts.{ask_text, confidence_word, say_text, show_text};

use cds_stamps::{DirId, HouseNo, SimpleName};
use script_answers::push_number;
use std::alloc::AllocError;

// Adds a number, and a space.
fn push_numbered(text: &mut Vec<u8>, number: u64) -> Result<(), AllocError>
    ensures { OnOk result (text.new.items
        ≡ text.old.items ++ (decimal number ++ 32 ∷ [])) }
{
    push_number(text, number)?;
    text.push(b' ')?;
    Ok(())
}

/// Adds the line that says a line of a command's answer.
pub fn push_say(text: &mut Vec<u8>, command: u64, line: &[u8]) -> Result<(), AllocError>
    ensures { OnOk result (text.new.items ≡ text.old.items ++ say_text command line.now) }
{
    text.extend_from_slice(b"say ")?;
    push_numbered(text, command)?;
    text.extend_from_slice(line)?;
    text.push(b'\n')?;
    Ok(())
}

/// Adds the line that asks a house something, for a command.
pub fn push_ask(
    text: &mut Vec<u8>,
    question: u64,
    command: u64,
    house: HouseNo,
    line: &[u8],
) -> Result<(), AllocError>
    ensures { OnOk result (text.new.items
        ≡ text.old.items ++ ask_text question command house.0 line.now) }
{
    text.extend_from_slice(b"ask ")?;
    push_numbered(text, question)?;
    push_numbered(text, command)?;
    push_numbered(text, u64::from(house.0))?;
    text.extend_from_slice(line)?;
    text.push(b'\n')?;
    Ok(())
}

// The word of a confidence, and a space.
fn confidence_word(high: bool) -> &'static [u8]
    ensures { result.now ≡ confidence_word high }
{
    if high { b"high " } else { b"low " }
}

/// Adds the question what shows of a name.
pub fn push_show(
    text: &mut Vec<u8>,
    high: bool,
    dir: DirId,
    name: &SimpleName,
) -> Result<(), AllocError>
    ensures { OnOk result (text.new.items ≡ text.old.items ++ show_text high dir.0 name.now) }
{
    text.extend_from_slice(b"show ")?;
    text.extend_from_slice(confidence_word(high))?;
    push_numbered(text, u64::from(dir.0))?;
    text.extend_from_slice(name.octets())?;
    Ok(())
}
