// The text of a record: of a turn its line, its messages and its answer.
ghost use Rattle.std.specs.Prelude.{◌≡◌, ◌≢◌, ◌<◌, ◌≤◌, ◌++◌, ◌∷◌, ℕ, List, length, drop, IfNone, IfOk, IfSome, OnOk, MatchOption};
ghost use Rattle.std.specs.Bool.{Decides};
ghost use Rattle.cell_script.specs.Words.{words_of};
ghost use Rattle.house_logs.specs.PrivateReads.{AreRunning, AreSaid, IsAfterRunning, IsTurnText};
ghost use Rattle.house_logs.specs.Reads.{IfFault};
ghost use Rattle.house_logs.specs.TurnTexts.{AreWordsOf, HasNoEnd, IsPost, post_line};
ghost use Rattle.house_logs.specs.declared.log.PostedOctets.{PostedOctets as PostedOctets'};

use crate::log::PostedOctets;
use cds_stamps::AllocOr;
use cell_script::{ParseFault, Words};
use script_answers::{push_hex, push_number};
use std::alloc::{AllocError, Global};

/// The text of a turn, in its parts.
#[derive(Drop)]
pub(crate) struct TurnText<'a> {
    pub(crate) line: &'a [u8],
    pub(crate) posts: Vec<PostedOctets>,
    pub(crate) answer: &'a [u8],
}

// The first line of a text, and what comes after its end; none, if no line ends in it.
fn first_line(text: &[u8]) -> Option<(&[u8], &[u8])>
    ensures shorter { IfSome result (λ r. length r.1.now < length text.now) }
    ensures cut { MatchOption result (HasNoEnd text.now)
        (λ r. (text.now ≡ r.0.now ++ (10 ∷ r.1.now)) × HasNoEnd r.0.now) }
{
    let at = text.iter().position(|octet| *octet == b'\n')?;
    Some((&text[..at], &text[at + 1..]))
}

/// What a text is after these octets, if it begins with them.
#[tactic(auto, using(crate::proofs::TextLemmas::few_after, crate::proofs::TextLemmas::other_front))]
pub(crate) fn without<'a>(front: &[u8], text: &'a [u8]) -> Option<&'a [u8]>
    ensures shorter { IfSome result (λ rest. length rest.now ≤ length text.now) }
    ensures parts { IfSome result (λ rest. text.now ≡ front.now ++ rest.now) }
    ensures none { IfNone result ((rest : List ℕ) → text.now ≢ front.now ++ rest) }
{
    if text.len() < front.len() {
        return None;
    }
    let (begin, rest) = text.split_at(front.len());
    if begin != front {
        return None;
    }
    Some(rest)
}

// Whether a text is lines of skulks that run.
fn are_running(text: &[u8]) -> bool
    ensures { Decides result (AreRunning text.now) }
{
    let mut rest = text;
    'lines: while !rest.is_empty() {
        let Some(words) = without(b"running ", rest) else {
            return false;
        };
        let Some((_, behind)) = first_line(words) else {
            return false;
        };
        rest = behind;
    }
    true
}

/// Whether octets are lines of skulks that run, and then this text.
pub(crate) fn is_after_running(octets: &[u8], text: &[u8]) -> bool
    ensures { Decides result (IsAfterRunning octets.now text.now) }
{
    if octets.len() < text.len() {
        return false;
    }
    let (lines, rest) = octets.split_at(octets.len() - text.len());
    rest == text && are_running(lines)
}

// The message that words are.
fn message_in(alloc: Global, words: &mut Words<'_>) -> Result<PostedOctets, AllocOr<ParseFault>>
    ensures is { IfOk result (AreWordsOf words.old.rest) }
    ensures none { IfFault result (λ fault.
        (p : PostedOctets') → ¬ AreWordsOf words.old.rest p) }
{
    words.exactly(2)?;
    Ok(PostedOctets {
        to: words.house()?,
        octets: words.octets(alloc)?,
    })
}

// The message that the words of a line are after the first one.
fn said_post(alloc: Global, line: &[u8]) -> Result<Option<PostedOctets>, AllocError>
    ensures { IfOk result (λ o. MatchOption o
        ((p : PostedOctets') → ¬ AreWordsOf (drop 1 (words_of line.now)) p)
        (AreWordsOf (drop 1 (words_of line.now)))) }
{
    let mut words = Words::of(line);
    let _word = words.next();
    match message_in(alloc, &mut words) {
        Ok(post) => Ok(Some(post)),
        Err(AllocOr::Fault(_)) => Ok(None),
        Err(AllocOr::OutOfMemory) => Err(AllocError),
    }
}

// The message of a line `post TO HEX`, if it is written so.
fn post_in(alloc: Global, line: &[u8]) -> Result<Option<PostedOctets>, AllocError>
    ensures is { IfOk result (λ o. IfSome o (λ p. (line.now ≡ post_line p)
        × AreWordsOf (drop 1 (words_of (post_line p))) p)) }
    ensures none { IfOk result (λ o. IfNone o
        ((p : PostedOctets') → IsPost p → line.now ≢ post_line p)) }
{
    let Some(post) = said_post(alloc, line)? else {
        return Ok(None);
    };
    let mut again = Vec::new(alloc);
    push_line(&mut again, &post)?;
    if again.as_slice() != line {
        return Ok(None);
    }
    Ok(Some(post))
}

// Adds the line of a message.
fn push_line(text: &mut Vec<u8>, post: &PostedOctets) -> Result<(), AllocError>
    ensures { OnOk result (text.new.items ≡ text.old.items ++ post_line post.now) }
{
    text.extend_from_slice(b"post ")?;
    push_number(text, u64::from(post.to.0))?;
    text.push(b' ')?;
    push_hex(text, post.octets.list())
}

// The messages and the answer of a turn: of its text what comes after its line.
#[derive(Drop)]
struct Said<'a> {
    posts: Vec<PostedOctets>,
    answer: &'a [u8],
}

// The messages and the answer that a text is.
fn said_part(alloc: Global, text: &[u8]) -> Result<Option<Said<'_>>, AllocError>
    ensures { IfOk result (λ o. MatchOption o
        ((posts : List PostedOctets') (answer : List ℕ) → ¬ AreSaid text.now posts answer)
        (λ t. AreSaid text.now t.posts.items t.answer.now)) }
{
    let mut posts = Vec::new(alloc);
    let mut rest = text;
    'lines: while let Some((line, behind)) = first_line(rest) {
        let Some(_) = without(b"post ", line) else {
            if !behind.is_empty() {
                return Ok(None);
            }
            return Ok(Some(Said {
                posts,
                answer: line,
            }));
        };
        let Some(post) = post_in(alloc, line)? else {
            return Ok(None);
        };
        posts.push(post)?;
        rest = behind;
    }
    Ok(None)
}

/// The turn that a text is, in its parts; none, if it is none.
pub(crate) fn turn_in(alloc: Global, text: &[u8]) -> Result<Option<TurnText<'_>>, AllocError>
    ensures { IfOk result (λ o. MatchOption o
        ((line : List ℕ) (posts : List PostedOctets') (answer : List ℕ)
        → ¬ IsTurnText text.now line posts answer)
        (λ t. IsTurnText text.now t.line.now t.posts.items t.answer.now)) }
{
    let Some((line, rest)) = first_line(text) else {
        return Ok(None);
    };
    let Some(said) = said_part(alloc, rest)? else {
        return Ok(None);
    };
    let Said { posts, answer } = said;
    Ok(Some(TurnText {
        line,
        posts,
        answer,
    }))
}
