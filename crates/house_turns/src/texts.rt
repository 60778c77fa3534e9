// Texts of messages, and of octets in pieces.
ghost use Rattle.std.specs.Prelude.{◌≡◌, ◌≤◌, ◌∷◌, [], ◌++◌, length, map, codes, OnOk};
ghost use Rattle.script_answers.specs.Texts.{line_text, lines_text};
ghost use Rattle.house_turns.specs.PostTexts.{end_line, octets_line, octets_lines, piece_lines, pieces_of, post_line};

use cds_stamps::HouseNo;
use script_answers::{begin_line, push_hex, push_number};
use std::alloc::AllocError;

// How many octets of a message, or of an image, a line of an answer has at most.
const PIECE: usize = 2000;

/// Adds a line of a word, which ends in a space, and octets.
pub(crate) fn push_octets(
    text: &mut Vec<u8>,
    number: u32,
    word: &[u8],
    octets: &[u8],
) -> Result<(), AllocError>
    ensures { OnOk result
        (text.new.items ≡ text.old.items ++ line_text number (octets_line word.now octets.now)) }
{
    begin_line(text, number)?;
    text.extend_from_slice(word)?;
    push_hex(text, octets)?;
    text.push(b'\n')?;
    Ok(())
}

/// Adds the last line of a list: how many there are.
pub(crate) fn push_end(text: &mut Vec<u8>, number: u32, count: usize) -> Result<(), AllocError>
    ensures { OnOk result (text.new.items ≡ text.old.items ++ line_text number (end_line count)) }
{
    begin_line(text, number)?;
    text.extend_from_slice(b"end ")?;
    push_number(text, count as u64)?;
    text.push(b'\n')?;
    Ok(())
}

// Adds the line of the last piece of octets, if there is one.
fn push_last_octets(text: &mut Vec<u8>, number: u32, octets: &[u8]) -> Result<(), AllocError>
    requires { length octets.now ≤ 2000 }
    ensures { OnOk result (text.new.items ≡ text.old.items
        ++ lines_text number (map (octets_line (codes "octets ")) (pieces_of 2000 octets.now))) }
{
    if octets.is_empty() {
        return Ok(());
    }
    push_octets(text, number, b"octets ", octets)?;
    Ok(())
}

/// Adds the lines of octets in pieces, and how many they are.
pub(crate) fn push_all_octets(
    text: &mut Vec<u8>,
    number: u32,
    octets: &[u8],
) -> Result<(), AllocError>
    ensures { OnOk result
        (text.new.items ≡ text.old.items ++ lines_text number (octets_lines octets.now)) }
{
    let mut rest = octets;
    'pieces: while rest.len() > PIECE {
        let (piece, behind) = rest.split_at(PIECE);
        push_octets(text, number, b"octets ", piece)?;
        rest = behind;
    }
    push_last_octets(text, number, rest)?;
    push_end(text, number, octets.len())?;
    Ok(())
}

/// Adds the words and the octets of a message, or of a part of one, and a line end. The word ends
/// in a space.
pub(crate) fn push_post(
    text: &mut Vec<u8>,
    word: &[u8],
    to: HouseNo,
    octets: &[u8],
) -> Result<(), AllocError>
    ensures { OnOk result
        (text.new.items ≡ text.old.items ++ (post_line word.now to.0 octets.now ++ 10 ∷ [])) }
{
    text.extend_from_slice(word)?;
    push_number(text, u64::from(to.0))?;
    text.push(b' ')?;
    push_hex(text, octets)?;
    text.push(b'\n')?;
    Ok(())
}

// Adds a line of a message, or of a part of one.
fn push_post_line(
    text: &mut Vec<u8>,
    number: u32,
    word: &[u8],
    to: HouseNo,
    octets: &[u8],
) -> Result<(), AllocError>
    ensures { OnOk result
        (text.new.items
        ≡ text.old.items ++ line_text number (post_line word.now to.0 octets.now)) }
{
    begin_line(text, number)?;
    push_post(text, word, to, octets)
}

/// Adds the lines of a message in pieces.
pub(crate) fn push_pieces(
    text: &mut Vec<u8>,
    number: u32,
    to: HouseNo,
    octets: &[u8],
) -> Result<(), AllocError>
    ensures { OnOk result
        (text.new.items
        ≡ text.old.items ++ lines_text number (piece_lines to.0 (pieces_of 2000 octets.now))) }
{
    let mut rest = octets;
    'pieces: while rest.len() > PIECE {
        let (piece, behind) = rest.split_at(PIECE);
        push_post_line(text, number, b"more ", to, piece)?;
        rest = behind;
    }
    push_post_line(text, number, b"post ", to, rest)?;
    Ok(())
}
