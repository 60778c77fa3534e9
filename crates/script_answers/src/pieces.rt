// The pieces of lines: numbers, octets, stamps, and the messages that were posted. Each is put
// after what is there. After it ran out of memory the text may have grown.
ghost use Rattle.std.specs.Prelude.{◌≡◌, ◌++◌, [], ◌∷◌, length, take, OnOk, OnErr, decimal};
ghost use Rattle.hex.specs.Hex.{encode_lower};
ghost use Rattle.script_answers.specs.Texts.{spaced, stamp_text, stamp_or, posted_words};

use cds_stamps::{EpochNo, Stamp};
use itoa::Buffer;
use std::alloc::AllocError;

/// A number, in decimal digits.
pub fn push_number(line: &mut Vec<u8>, number: u64) -> Result<(), AllocError>
    ensures ok { OnOk result (line.new.items ≡ line.old.items ++ decimal number) }
    ensures err { OnErr result (take (length line.old.items) line.new.items ≡ line.old.items) }
{
    let mut digits = Buffer::new();
    line.extend_from_slice(digits.format(number).as_bytes())
}

/// The same after a space.
pub(crate) fn push_spaced(line: &mut Vec<u8>, number: u64) -> Result<(), AllocError>
    ensures ok { OnOk result (line.new.items ≡ line.old.items ++ 32 ∷ decimal number) }
    ensures err { OnErr result (take (length line.old.items) line.new.items ≡ line.old.items) }
{
    line.push(b' ')?;
    push_number(line, number)
}

/// A word after a space.
pub(crate) fn push_word(line: &mut Vec<u8>, word: &[u8]) -> Result<(), AllocError>
    ensures ok { OnOk result (line.new.items ≡ line.old.items ++ 32 ∷ word.now) }
    ensures err { OnErr result (take (length line.old.items) line.new.items ≡ line.old.items) }
{
    line.push(b' ')?;
    line.extend_from_slice(word)
}

/// What a line begins with: the number of the script line, and a space.
pub fn begin_line(text: &mut Vec<u8>, number: u32) -> Result<(), AllocError>
    ensures ok { OnOk result (text.new.items ≡ text.old.items ++ (decimal number ++ 32 ∷ [])) }
    ensures err { OnErr result (take (length text.old.items) text.new.items ≡ text.old.items) }
{
    push_number(text, u64::from(number))?;
    text.push(b' ')?;
    Ok(())
}

/// Octets, each in two hexadecimal digits.
pub fn push_hex(line: &mut Vec<u8>, octets: &[u8]) -> Result<(), AllocError>
    ensures ok { OnOk result (line.new.items ≡ line.old.items ++ encode_lower octets.now) }
    ensures err { OnErr result (take (length line.old.items) line.new.items ≡ line.old.items) }
{
    let start = line.len();
    let end = start.checked_add(2 * octets.len()).ok_or(AllocError)?;
    line.resize(end, 0)?;
    match hex::encode_to_slice(octets, &mut line[start..]) {
        Ok(()) => Ok(()),
        Err(_) => unreachable!(),
    }
}

/// A stamp: its time, `@` and its node.
pub fn push_stamp(line: &mut Vec<u8>, stamp: &Stamp) -> Result<(), AllocError>
    ensures ok { OnOk result (line.new.items ≡ line.old.items ++ stamp_text stamp.now) }
    ensures err { OnErr result (take (length line.old.items) line.new.items ≡ line.old.items) }
{
    push_number(line, stamp.time)?;
    line.push(b'@')?;
    push_hex(line, &stamp.node.number().to_be_bytes()[2..])
}

/// The same after a space.
pub(crate) fn push_spaced_stamp(line: &mut Vec<u8>, stamp: &Stamp) -> Result<(), AllocError>
    ensures ok { OnOk result (line.new.items ≡ line.old.items ++ 32 ∷ stamp_text stamp.now) }
    ensures err { OnErr result (take (length line.old.items) line.new.items ≡ line.old.items) }
{
    line.push(b' ')?;
    push_stamp(line, stamp)
}

/// A stamp, or this word where there is none.
pub fn push_stamp_or(
    line: &mut Vec<u8>,
    none: &[u8],
    stamp: Option<Stamp>,
) -> Result<(), AllocError>
    ensures ok { OnOk result (line.new.items ≡ line.old.items ++ stamp_or none.now stamp) }
    ensures err { OnErr result (take (length line.old.items) line.new.items ≡ line.old.items) }
{
    match stamp {
        Some(stamp) => push_stamp(line, &stamp),
        None => line.extend_from_slice(none),
    }
}

/// The same after a space.
pub(crate) fn push_spaced_stamp_or(
    line: &mut Vec<u8>,
    none: &[u8],
    stamp: Option<Stamp>,
) -> Result<(), AllocError>
    ensures ok { OnOk result (line.new.items ≡ line.old.items ++ 32 ∷ stamp_or none.now stamp) }
    ensures err { OnErr result (take (length line.old.items) line.new.items ≡ line.old.items) }
{
    line.push(b' ')?;
    push_stamp_or(line, none, stamp)
}

/// Two epochs, each after a space.
pub(crate) fn push_epochs(line: &mut Vec<u8>, a: EpochNo, b: EpochNo) -> Result<(), AllocError>
    ensures ok { OnOk result
        (line.new.items ≡ line.old.items ++ spaced (decimal a.0 ∷ decimal b.0 ∷ [])) }
    ensures err { OnErr result (take (length line.old.items) line.new.items ≡ line.old.items) }
{
    push_spaced(line, a.0)?;
    push_spaced(line, b.0)
}

/// The serial numbers of the messages that were posted, if any.
pub(crate) fn push_posted(line: &mut Vec<u8>, serials: &[u64]) -> Result<(), AllocError>
    ensures ok { OnOk result
        (line.new.items ≡ line.old.items ++ spaced (posted_words serials.now)) }
    ensures err { OnErr result (take (length line.old.items) line.new.items ≡ line.old.items) }
{
    if serials.is_empty() {
        return Ok(());
    }
    line.extend_from_slice(b" posted")?;
    for serial in serials {
        push_spaced(line, *serial)?;
    }
    Ok(())
}

/// The stamp of an update after a space, and the messages that were posted.
pub(crate) fn push_stamped(
    line: &mut Vec<u8>,
    stamp: &Stamp,
    serials: &[u64],
) -> Result<(), AllocError>
    ensures ok { OnOk result
        (line.new.items
        ≡ line.old.items ++ spaced (stamp_text stamp.now ∷ posted_words serials.now)) }
    ensures err { OnErr result (take (length line.old.items) line.new.items ≡ line.old.items) }
{
    push_spaced_stamp(line, stamp)?;
    push_posted(line, serials)
}
