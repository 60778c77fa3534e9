// The commands that make houses and directories: under the word of each, how many words follow it,
// and what they are.
#![tactic(auto, unfolding(crate::specs::PrivateRows::by_all_rows))]

ghost use Rattle.std.specs.Prelude.{codes};
ghost use Rattle.cell_script.specs.PrivateRows.{Says, by_all_rows};

use crate::command::{Command, ScriptLine};
use crate::words::{Parsed, Words};
use std::alloc::Global;

pub(crate) fn house(words: &mut Words<'_>) -> Parsed<ScriptLine>
    ensures { Says result (by_all_rows (codes "house") words.old) }
{
    words.exactly(2)?;
    Ok(ScriptLine::Cell(Command::House(words.house()?, words.node()?)))
}

pub(crate) fn clock(words: &mut Words<'_>) -> Parsed<ScriptLine>
    ensures { Says result (by_all_rows (codes "clock") words.old) }
{
    words.exactly(2)?;
    Ok(ScriptLine::Cell(Command::Clock(words.house()?, words.time()?)))
}

pub(crate) fn root(alloc: Global, words: &mut Words<'_>) -> Parsed<ScriptLine>
    ensures { Says result (by_all_rows (codes "root") words.old) }
{
    words.at_least(1)?;
    Ok(ScriptLine::Cell(Command::Root(words.house()?, words.listeds(alloc)?)))
}

pub(crate) fn mkdir(alloc: Global, words: &mut Words<'_>) -> Parsed<ScriptLine>
    ensures { Says result (by_all_rows (codes "mkdir") words.old) }
{
    words.at_least(4)?;
    Ok(ScriptLine::Cell(Command::Mkdir(
        words.house()?,
        words.directory()?,
        words.simple_name(alloc)?,
        words.house()?,
        words.listeds(alloc)?,
    )))
}

pub(crate) fn repoint(alloc: Global, words: &mut Words<'_>) -> Parsed<ScriptLine>
    ensures { Says result (by_all_rows (codes "repoint") words.old) }
{
    words.at_least(4)?;
    Ok(ScriptLine::Cell(Command::Repoint(
        words.house()?,
        words.directory()?,
        words.simple_name(alloc)?,
        words.house()?,
        words.houses(alloc)?,
    )))
}
