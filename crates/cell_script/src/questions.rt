// The questions.
#![tactic(auto, unfolding(crate::specs::PrivateRows::by_question_rows))]

ghost use Rattle.std.specs.Prelude.{codes};
ghost use Rattle.cell_script.specs.PrivateRows.{Says, by_question_rows};

use crate::command::{Question, ScriptLine};
use crate::words::{Parsed, Words};
use std::alloc::Global;

pub(crate) fn read(alloc: Global, words: &mut Words<'_>) -> Parsed<ScriptLine>
    ensures { Says result (by_question_rows (codes "read") words.old) }
{
    words.exactly(4)?;
    Ok(ScriptLine::Question(Question::Read(
        words.house()?,
        words.confidence()?,
        words.full_name(alloc)?,
        words.attr_name(alloc)?,
    )))
}

pub(crate) fn readlink(alloc: Global, words: &mut Words<'_>) -> Parsed<ScriptLine>
    ensures { Says result (by_question_rows (codes "readlink") words.old) }
{
    words.exactly(3)?;
    Ok(ScriptLine::Question(Question::Readlink(
        words.house()?,
        words.confidence()?,
        words.full_name(alloc)?,
    )))
}

pub(crate) fn dump(words: &mut Words<'_>) -> Parsed<ScriptLine>
    ensures { Says result (by_question_rows (codes "dump") words.old) }
{
    words.exactly(2)?;
    Ok(ScriptLine::Question(Question::Dump(words.house()?, words.directory()?)))
}

pub(crate) fn octets(words: &mut Words<'_>) -> Parsed<ScriptLine>
    ensures { Says result (by_question_rows (codes "octets") words.old) }
{
    words.exactly(2)?;
    Ok(ScriptLine::Question(words.encoded()?))
}

pub(crate) fn decode(alloc: Global, words: &mut Words<'_>) -> Parsed<ScriptLine>
    ensures { Says result (by_question_rows (codes "decode") words.old) }
{
    words.exactly(1)?;
    Ok(ScriptLine::Question(Question::Decode(words.octets(alloc)?)))
}
