// The questions: what the house holds and shows.
#![tactic(auto, unfolding(crate::specs::PrivateLineRows::by_question_rows))]

ghost use Rattle.std.specs.Prelude.{codes};
ghost use Rattle.house_lines.specs.PrivateLineRows.{Says, by_question_rows};

use crate::line::{HouseLine, HouseQuestion};
use cell_script::{Parsed, Words};
use std::alloc::Global;

pub(crate) fn dump(words: &mut Words<'_>) -> Parsed<HouseLine>
    ensures { Says result (by_question_rows (codes "dump") words.old) }
{
    words.exactly(1)?;
    Ok(HouseLine::Ask(HouseQuestion::Dump(words.directory()?)))
}

pub(crate) fn look(alloc: Global, words: &mut Words<'_>) -> Parsed<HouseLine>
    ensures { Says result (by_question_rows (codes "look") words.old) }
{
    words.exactly(3)?;
    Ok(HouseLine::Ask(HouseQuestion::Look(
        words.directory()?,
        words.simple_name(alloc)?,
        words.attr_name(alloc)?,
    )))
}

pub(crate) fn show(alloc: Global, words: &mut Words<'_>) -> Parsed<HouseLine>
    ensures { Says result (by_question_rows (codes "show") words.old) }
{
    words.exactly(3)?;
    Ok(HouseLine::Ask(HouseQuestion::Show(
        words.confidence()?,
        words.directory()?,
        words.simple_name(alloc)?,
    )))
}

pub(crate) fn status(words: &mut Words<'_>) -> Parsed<HouseLine>
    ensures { Says result (by_question_rows (codes "status") words.old) }
{
    words.exactly(1)?;
    Ok(HouseLine::Ask(HouseQuestion::Status(words.directory()?)))
}

pub(crate) fn directories(words: &mut Words<'_>) -> Parsed<HouseLine>
    ensures { Says result (by_question_rows (codes "directories") words.old) }
{
    words.exactly(0)?;
    Ok(HouseLine::Ask(HouseQuestion::Directories))
}

pub(crate) fn image(words: &mut Words<'_>) -> Parsed<HouseLine>
    ensures { Says result (by_question_rows (codes "image") words.old) }
{
    words.exactly(0)?;
    Ok(HouseLine::Ask(HouseQuestion::Image))
}
