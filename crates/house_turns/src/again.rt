// The last turn of a house, as it is said again at a start.
ghost use Rattle.std.specs.Prelude.{◌≡◌, ◌==◌, ◌++◌, ◌∷◌, [], ℕ, List, codes, decimal, OnOk};
ghost use Rattle.std.specs.List.{after_first, before_first, position};
ghost use Rattle.hex.specs.Hex.{encode_lower};
ghost use Rattle.script_answers.specs.Texts.{line_text, lines_text};
ghost use Rattle.cell_runs.specs.Entries.{Post};
ghost use Rattle.house_turns.specs.LineOutcomes.{HasNoEnd};
ghost use Rattle.house_turns.specs.HouseReplies.{posts_text, turn_lines, turn_text};
ghost use Rattle.house_turns.specs.Openings as openings;
ghost use Rattle.house_turns.specs.Openings.{again_lines};
ghost use Rattle.house_turns.specs.PostTexts.{piece_lines, pieces_of, post_line};

use script_answers::begin_line;
use std::alloc::AllocError;

// Where the first of these octets is.
fn place_of(octets: &[u8], octet: u8) -> Option<usize>
    ensures { result ≡ position (λ b. b == octet) octets.now }
{
    octets.iter().position(|other| *other == octet)
}

/// Octets cut at the first of these: those before it, and those after it; or all and none.
pub(crate) fn cut_at(octets: &[u8], separator: u8) -> (&[u8], &[u8])
    ensures before { result.0.now ≡ before_first (λ b. b == separator) octets.now }
    ensures after { result.1.now ≡ after_first (λ b. b == separator) octets.now }
{
    match place_of(octets, separator) {
        Some(at) => (&octets[..at], &octets[at + 1..]),
        None => (octets, &octets[octets.len()..]),
    }
}

// How many hexadecimal digits a piece has.
const DIGITS: usize = 4000;

/// Adds a line of what is said at a start.
pub(crate) fn push_said(text: &mut Vec<u8>, said: &[u8]) -> Result<(), AllocError>
    ensures { OnOk result (text.new.items ≡ text.old.items ++ line_text 0 said.now) }
{
    begin_line(text, 0)?;
    text.extend_from_slice(said)?;
    text.push(b'\n')?;
    Ok(())
}

// The line of a turn as it is said again: of `take` the word alone.
fn said_again(line: &[u8]) -> &[u8]
    ensures { result.now ≡ openings.said_again line.now }
{
    if line.starts_with(b"take ") {
        b"take"
    } else {
        line
    }
}

// Adds the line of a turn as it is said again.
fn push_line(text: &mut Vec<u8>, line: &[u8]) -> Result<(), AllocError>
    ensures { OnOk result (text.new.items ≡ text.old.items
        ++ line_text 0 (codes "last " ++ openings.said_again line.now)) }
{
    begin_line(text, 0)?;
    text.extend_from_slice(b"last ")?;
    text.extend_from_slice(said_again(line))?;
    text.push(b'\n')?;
    Ok(())
}

// Adds a line of a piece of a message: a word, which ends in a space, the digits of the house that
// it goes to, and those of its octets.
fn push_piece(text: &mut Vec<u8>, word: &[u8], to: &[u8], digits: &[u8]) -> Result<(), AllocError>
    ensures { OnOk result (text.new.items ≡ text.old.items
        ++ line_text 0 (word.now ++ (to.now ++ (32 ∷ digits.now)))) }
{
    begin_line(text, 0)?;
    text.extend_from_slice(word)?;
    text.extend_from_slice(to)?;
    text.push(b' ')?;
    text.extend_from_slice(digits)?;
    text.push(b'\n')?;
    Ok(())
}

// Adds the lines of a message in pieces.
fn push_pieces(text: &mut Vec<u8>, to: &[u8], digits: &[u8]) -> Result<(), AllocError>
    ensures { (p : Post) → to.now ≡ decimal p.to → digits.now ≡ encode_lower p.octets
        → OnOk result (text.new.items
        ≡ text.old.items ++ lines_text 0 (piece_lines p.to (pieces_of 2000 p.octets))) }
{
    let mut rest = digits;
    'pieces: while rest.len() > DIGITS {
        let (piece, behind) = rest.split_at(DIGITS);
        push_piece(text, b"more ", to, piece)?;
        rest = behind;
    }
    push_piece(text, b"post ", to, rest)
}

// Adds the lines of a message, out of its line in a record.
fn push_message(text: &mut Vec<u8>, line: &[u8]) -> Result<(), AllocError>
    ensures { (p : Post) → line.now ≡ post_line (codes "post ") p.to p.octets
        → OnOk result (text.new.items
        ≡ text.old.items ++ lines_text 0 (piece_lines p.to (pieces_of 2000 p.octets))) }
{
    let (_, message) = cut_at(line, b' ');
    let (to, digits) = cut_at(message, b' ');
    push_pieces(text, to, digits)
}

// Adds the messages and the answer of a turn: the last line is the answer.
fn push_posts(text: &mut Vec<u8>, posts: &[u8]) -> Result<(), AllocError>
    ensures { (ps : List Post) (answer : List ℕ)
        → posts.now ≡ posts_text ps ++ (answer ++ 10 ∷ []) → HasNoEnd answer
        → OnOk result (text.new.items ≡ text.old.items ++ lines_text 0 (turn_lines ps answer)) }
{
    let (mut line, mut rest) = cut_at(posts, b'\n');
    'posts: while !rest.is_empty() {
        push_message(text, line)?;
        let (next, behind) = cut_at(rest, b'\n');
        line = next;
        rest = behind;
    }
    push_said(text, line)
}

/// Adds a turn as it is said again.
pub(crate) fn push_again(text: &mut Vec<u8>, turn: &[u8]) -> Result<(), AllocError>
    ensures { (line : List ℕ) (ps : List Post) (answer : List ℕ)
        → turn.now ≡ turn_text line ps answer → HasNoEnd line → HasNoEnd answer
        → OnOk result (text.new.items
        ≡ text.old.items ++ lines_text 0 (again_lines line ps answer)) }
{
    let (line, posts) = cut_at(turn, b'\n');
    push_line(text, line)?;
    push_posts(text, posts)
}
