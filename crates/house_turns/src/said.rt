// What a line comes to, and the texts of that.
ghost use Rattle.std.specs.Prelude.{◌≡◌, ◌∷◌, [], ℕ, IfOk};
ghost use Rattle.script_answers.specs.Texts.{answer_line, answer_lines};
ghost use Rattle.cell_runs.specs.LineAnswers as lines;
ghost use Rattle.house_turns.specs.LineOutcomes as outcomes;
ghost use Rattle.house_turns.specs.PrivateTurns.{Says, posts_in, posts_of_letters};

use clearinghouse::Letters;
use script_answers::{Answer, ScriptRefusal, append_answer, append_said, begin_line};
use std::alloc::{AllocError, Global};

/// The messages that a turn posts: one to some houses, and then another to some houses.
#[derive(Drop)]
pub(crate) struct Posts {
    pub(crate) first: Option<Letters>,
    pub(crate) second: Option<Letters>,
}

impl Posts {
    /// No message.
    pub(crate) fn none() -> Posts
        ensures { posts_in result ≡ [] }
    {
        Posts {
            first: None,
            second: None,
        }
    }

    /// These messages alone.
    pub(crate) fn one(first: Option<Letters>) -> Posts
        ensures { posts_in result ≡ posts_of_letters first }
    {
        Posts {
            first,
            second: None,
        }
    }
}

/// What a line comes to.
#[derive(Drop)]
pub(crate) enum Said {
    /// No turn: these lines, with the number of the line that they answer.
    Told(Vec<u8>),
    /// A turn: what it posts, and its answer.
    Turned(Posts, Vec<u8>),
}

/// No turn, with this answer.
pub(crate) fn told(alloc: Global, number: u32, answer: &Answer) -> Result<Said, AllocError>
    ensures { IfOk result (λ s. Says number s (outcomes.Tells (answer_lines answer.now))) }
{
    let mut text = Vec::new(alloc);
    append_answer(alloc, &mut text, number, answer)?;
    Ok(Said::Told(text))
}

/// No turn: a refusal.
pub(crate) fn refused(
    alloc: Global,
    number: u32,
    refusal: ScriptRefusal,
) -> Result<Said, AllocError>
    ensures { IfOk result (λ s. Says number s (outcomes.Tells (lines.refused refusal ∷ []))) }
{
    told(alloc, number, &Answer::Refused(refusal))
}

/// No turn: a line with these words.
pub(crate) fn told_words(alloc: Global, number: u32, words: &[u8]) -> Result<Said, AllocError>
    ensures { IfOk result (λ s. Says number s (outcomes.Tells (words.now ∷ []))) }
{
    let mut text = Vec::new(alloc);
    begin_line(&mut text, number)?;
    text.extend_from_slice(words)?;
    text.push(b'\n')?;
    Ok(Said::Told(text))
}

// What an answer of one line says.
fn octets_of(alloc: Global, answer: &Answer) -> Result<Vec<u8>, AllocError>
    ensures { IfOk result (λ v. v.items ≡ answer_line answer.now) }
{
    let mut line = Vec::new(alloc);
    append_said(alloc, &mut line, answer)?;
    Ok(line)
}

/// A turn with this answer.
pub(crate) fn turned(alloc: Global, posts: Posts, answer: &Answer) -> Result<Said, AllocError>
    ensures { (number : ℕ) → IfOk result
        (λ s. Says number s (outcomes.Posts (posts_in posts) (answer_line answer.now))) }
{
    Ok(Said::Turned(posts, octets_of(alloc, answer)?))
}
