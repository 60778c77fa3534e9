// The commands about all replicas of a directory, and those that tell what befalls messages and
// houses.
#![tactic(auto, unfolding(crate::specs::PrivateRows::by_replica_rows))]

ghost use Rattle.std.specs.Prelude.{codes};
ghost use Rattle.cell_script.specs.PrivateRows.{Says, by_replica_rows, befallen};

use crate::command::{Command, ScriptLine};
use crate::words::{Parsed, Words};
use std::alloc::Global;

pub(crate) fn epoch(alloc: Global, words: &mut Words<'_>) -> Parsed<ScriptLine>
    ensures { Says result (by_replica_rows (codes "epoch") words.old) }
{
    words.at_least(2)?;
    Ok(ScriptLine::Cell(Command::Epoch(words.directory()?, words.house()?, words.listeds(alloc)?)))
}

pub(crate) fn skulk(words: &mut Words<'_>) -> Parsed<ScriptLine>
    ensures { Says result (by_replica_rows (codes "skulk") words.old) }
{
    words.exactly(2)?;
    Ok(ScriptLine::Cell(Command::Skulk(words.house()?, words.directory()?)))
}

#[tactic(auto, unfolding(crate::specs::PrivateRows::befallen))]
pub(crate) fn deliver(words: &mut Words<'_>) -> Parsed<ScriptLine>
    ensures { Says result (befallen (codes "deliver") words.old) }
{
    words.exactly(1)?;
    Ok(ScriptLine::Cell(Command::Deliver(words.serial()?)))
}

#[tactic(auto, unfolding(crate::specs::PrivateRows::befallen))]
pub(crate) fn lose(words: &mut Words<'_>) -> Parsed<ScriptLine>
    ensures { Says result (befallen (codes "lose") words.old) }
{
    words.exactly(1)?;
    Ok(ScriptLine::Cell(Command::Lose(words.serial()?)))
}

#[tactic(auto, unfolding(crate::specs::PrivateRows::befallen))]
pub(crate) fn crash(words: &mut Words<'_>) -> Parsed<ScriptLine>
    ensures { Says result (befallen (codes "crash") words.old) }
{
    words.exactly(1)?;
    Ok(ScriptLine::Cell(Command::Crash(words.house()?)))
}

#[tactic(auto, unfolding(crate::specs::PrivateRows::befallen))]
pub(crate) fn start(words: &mut Words<'_>) -> Parsed<ScriptLine>
    ensures { Says result (befallen (codes "start") words.old) }
{
    words.exactly(1)?;
    Ok(ScriptLine::Cell(Command::Start(words.house()?)))
}
