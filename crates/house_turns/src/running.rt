// The skulks that run, as the first record of a segment says them.
ghost use Rattle.std.specs.Prelude.{◌≡◌, ◌≢◌, ◌∷◌, ◌++◌, ◌<◌, ◌^◌, ℕ, Some, decimal, IfOk, IfNone, IfSome, MatchOption, OnOk};
ghost use Rattle.hex.specs.Hex.{encode_lower};
ghost use Rattle.cds_stamps.specs.declared.stamp.Stamp.{Stamp};
ghost use Rattle.record_fields.specs.FieldRanges.{FitsStamp};
ghost use Rattle.script_answers.specs.Texts.{node_octets, stamp_text};
ghost use Rattle.clearinghouse.specs.declared.running.Round.{Round};
ghost use Rattle.clearinghouse.specs.declared.running.RunningSkulk.{RunningSkulk};
ghost use Rattle.house_turns.specs.LineOutcomes.{HasNoEnd};
ghost use Rattle.house_turns.specs.PrivateTurns.{ReadsSkulks};
ghost use Rattle.house_turns.specs.RunningSkulks as running;
ghost use Rattle.house_turns.specs.RunningSkulks.{AllFit, FitsRunning, running_line, running_lines};

use crate::again::cut_at;
use cds_stamps::{DirId, MemberMask, Node, Stamp};
use clearinghouse::{Round, RunningSkulk};
use script_answers::{push_hex, push_number};
use std::alloc::{AllocError, Global};

// The word of a round.
fn round_word(round: Round) -> &'static [u8]
    ensures { result.now ≡ running.round_word round }
{
    match round {
        Round::Gather => b"gather",
        Round::Spread => b"spread",
    }
}

/// Adds a node, in twelve hexadecimal digits.
pub(crate) fn push_node(text: &mut Vec<u8>, node: Node) -> Result<(), AllocError>
    ensures digits { OnOk result
        (text.new.items ≡ text.old.items ++ encode_lower (node_octets node)) }
    ensures fits { node < 2 ^ 48 }
{
    let number = node.number();
    push_hex(text, &number.to_be_bytes()[2..])
}

// Adds a stamp: its time, `@` and its node.
fn push_stamp(text: &mut Vec<u8>, stamp: &Stamp) -> Result<(), AllocError>
    ensures stamp { OnOk result (text.new.items ≡ text.old.items ++ stamp_text stamp.now) }
    ensures fits { OnOk result (FitsStamp stamp.now) }
{
    push_number(text, stamp.time)?;
    text.push(b'@')?;
    push_node(text, stamp.node)?;
    Ok(())
}

// Adds the line of a skulk that runs.
fn push_line(text: &mut Vec<u8>, skulk: &RunningSkulk) -> Result<(), AllocError>
    ensures line { OnOk result (text.new.items ≡ text.old.items ++ running_line skulk.now) }
    ensures fits { OnOk result (FitsRunning skulk.now) }
{
    text.extend_from_slice(b"running ")?;
    push_number(text, u64::from(skulk.dir.0))?;
    text.push(b' ')?;
    push_stamp(text, &skulk.t)?;
    text.push(b' ')?;
    text.extend_from_slice(round_word(skulk.round))?;
    text.push(b' ')?;
    push_number(text, skulk.answered.0)?;
    Ok(())
}

/// Adds the lines of skulks that run.
pub(crate) fn push_skulks(text: &mut Vec<u8>, skulks: &[RunningSkulk]) -> Result<(), AllocError>
    ensures lines { OnOk result (text.new.items ≡ text.old.items ++ running_lines skulks.now) }
    ensures fit { OnOk result (AllFit skulks.now) }
{
    for skulk in skulks {
        push_line(text, skulk)?;
        text.push(b'\n')?;
    }
    Ok(())
}

// The number that decimal digits say.
fn number_in(word: &[u8]) -> Option<u64>
    ensures { (n : ℕ) → n < 2 ^ 64 → word.now ≡ decimal n → result ≡ Some n }
{
    match std::str::from_utf8(word) {
        Ok(digits) => digits.parse::<u64>().ok(),
        Err(_) => None,
    }
}

// The directory that decimal digits say.
fn directory_in(word: &[u8]) -> Option<DirId>
    ensures { (n : ℕ) → n < 2 ^ 32 → word.now ≡ decimal n → result ≡ Some (record { 0 = n }) }
{
    let number = number_in(word)?;
    if number > u64::from(u32::MAX) {
        return None;
    }
    Some(DirId(number as u32))
}

// The node that twelve hexadecimal digits say.
fn node_in(word: &[u8]) -> Option<Node>
    ensures { (n : ℕ) → n < 2 ^ 48 → word.now ≡ encode_lower (node_octets n) → result ≡ Some n }
{
    let mut octets = [0; 8];
    hex::decode_to_slice(word, &mut octets[2..]).ok()?;
    Node::new(u64::from_be_bytes(octets))
}

// The stamp that a word says.
fn stamp_in(word: &[u8]) -> Option<Stamp>
    ensures { (s : Stamp) → FitsStamp s → word.now ≡ stamp_text s → result ≡ Some s }
{
    let (time, node) = cut_at(word, b'@');
    Some(Stamp {
        time: number_in(time)?,
        node: node_in(node)?,
    })
}

// The round that a word says.
fn round_in(word: &[u8]) -> Option<Round>
    ensures { (r : Round) → word.now ≡ running.round_word r → result ≡ Some r }
{
    if word == b"gather".as_slice() {
        Some(Round::Gather)
    } else if word == b"spread".as_slice() {
        Some(Round::Spread)
    } else {
        None
    }
}

// What the words of a line say, if it is that of a skulk that runs.
fn words_in(line: &[u8]) -> Option<RunningSkulk>
    ensures { (r : RunningSkulk) → FitsRunning r → line.now ≡ running_line r
        → result ≡ Some r }
{
    let (_, words) = cut_at(line, b' ');
    let (dir, words) = cut_at(words, b' ');
    let (stamp, words) = cut_at(words, b' ');
    let (round, answered) = cut_at(words, b' ');
    Some(RunningSkulk {
        dir: directory_in(dir)?,
        round: round_in(round)?,
        t: stamp_in(stamp)?,
        answered: MemberMask(number_in(answered)?),
    })
}

// The skulk that runs by a line; none, if it is the line of none.
fn skulk_in(alloc: Global, line: &[u8]) -> Result<Option<RunningSkulk>, AllocError>
    ensures some { IfOk result
        (λ o. IfSome o (λ r. (line.now ≡ running_line r) × FitsRunning r)) }
    ensures none { IfOk result (λ o. IfNone o
        ((r : RunningSkulk) → FitsRunning r → line.now ≢ running_line r)) }
{
    let Some(skulk) = words_in(line) else {
        return Ok(None);
    };
    let mut again = Vec::new(alloc);
    push_line(&mut again, &skulk)?;
    if again.as_slice() == line {
        Ok(Some(skulk))
    } else {
        Ok(None)
    }
}

/// The first line of octets, and what comes after it; none, if no line ends in them.
pub(crate) fn line_in(octets: &[u8]) -> Option<(&[u8], &[u8])>
    ensures { MatchOption result (HasNoEnd octets.now)
        (λ cut. (octets.now ≡ cut.0.now ++ (10 ∷ cut.1.now)) × HasNoEnd cut.0.now) }
{
    let at = octets.iter().position(|octet| *octet == b'\n')?;
    Some((&octets[..at], &octets[at + 1..]))
}

/// The skulks that run by the lines in front of a text, and what comes after these.
#[derive(Drop)]
pub(crate) struct RunningLines<'a> {
    pub(crate) skulks: Vec<RunningSkulk>,
    pub(crate) rest: &'a [u8],
}

/// Reads the lines of skulks in front of a text; none, if one that begins as such a line is none.
pub(crate) fn read_skulks(
    alloc: Global,
    text: &[u8],
) -> Result<Option<RunningLines<'_>>, AllocError>
    ensures { IfOk result (ReadsSkulks text.now) }
{
    let mut skulks = Vec::new(alloc);
    let mut rest = text;
    'lines: while rest.starts_with(b"running ") {
        let Some((line, behind)) = line_in(rest) else {
            return Ok(None);
        };
        let Some(skulk) = skulk_in(alloc, line)? else {
            return Ok(None);
        };
        skulks.push(skulk)?;
        rest = behind;
    }
    Ok(Some(RunningLines { skulks, rest }))
}
