// The lines that a clerk reads.
ghost use Rattle.std.specs.Prelude.{◌≡◌};
ghost use Rattle.std.specs.Option.{option_map};
ghost use Rattle.clerk_lines.specs.ClerkWords.{line_said, number_said, said_by};
ghost use Rattle.tower_codec.specs.BindingReading.{cut_at_mark};

use cell_script::number_up_to;
use tower_codec::split_at_mark;

/// What a line of a clerk is.
#[derive(Clone, Copy, Debug, PartialEq, Eq, Drop)]
pub enum ClerkWord {
    /// A command, which gets this number.
    Do,
    /// A line of the answer to the question of this number.
    Hear,
    /// The house of the question of this number is not reached.
    Down,
}

/// A line of a clerk: what it is, its number, and the text after that.
#[derive(Clone, Copy)]
pub struct ClerkLine<'a> {
    pub word: ClerkWord,
    pub number: u64,
    pub text: &'a [u8],
}

/// What a line says to a clerk. Nothing, if it is none of a clerk's.
#[tactic(auto, unfolding(crate::specs::ClerkWords::line_said))]
pub fn read_clerk_line(line: &[u8]) -> Option<ClerkLine<'_>>
    ensures { option_map (λ l. (l.word, l.number, l.text.now)) result ≡ line_said line.now }
{
    let (word, rest) = split_at_mark(line, b' ')?;
    said_by(word, rest)
}

// What the rest of a line with this first word says.
#[tactic(auto, unfolding(crate::specs::ClerkWords::said_by))]
fn said_by<'a>(word: &[u8], rest: &'a [u8]) -> Option<ClerkLine<'a>>
    ensures { option_map (λ l. (l.word, l.number, l.text.now)) result ≡ said_by word.now rest.now }
{
    if word == b"do".as_slice() {
        return numbered(ClerkWord::Do, rest);
    }
    if word == b"hear".as_slice() {
        return numbered(ClerkWord::Hear, rest);
    }
    if word == b"down".as_slice() {
        return Some(ClerkLine {
            word: ClerkWord::Down,
            number: number_up_to(rest, u64::MAX)?,
            text: &[],
        });
    }
    None
}

// A line with a number and a text after that.
#[tactic(auto, unfolding(crate::specs::ClerkWords::number_said))]
fn numbered(word: ClerkWord, rest: &[u8]) -> Option<ClerkLine<'_>>
    ensures { option_map (λ l. (l.word, l.number, l.text.now)) result ≡ number_said word rest.now }
{
    let (number, text) = split_at_mark(rest, b' ')?;
    Some(ClerkLine {
        word,
        number: number_up_to(number, u64::MAX)?,
        text,
    })
}
