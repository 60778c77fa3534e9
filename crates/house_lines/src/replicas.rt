// The lines that make a house and directories, those about all replicas of a directory, and those
// that hand over messages.
#![tactic(auto, unfolding(crate::specs::PrivateLineRows::by_making_rows, crate::specs::PrivateLineRows::by_message_rows))]

ghost use Rattle.std.specs.Prelude.{codes};
ghost use Rattle.house_lines.specs.PrivateLineRows.{Says, by_epoch, by_making_rows, by_message_rows};

use crate::line::{HouseLine, HouseOrder};
use crate::listing::epoch_list;
use cds_stamps::EpochNo;
use cell_script::{Parsed, Words};
use std::alloc::Global;

pub(crate) fn house(words: &mut Words<'_>) -> Parsed<HouseLine>
    ensures { Says result (by_making_rows (codes "house") words.old) }
{
    words.exactly(2)?;
    Ok(HouseLine::House(words.house()?, words.node()?))
}

pub(crate) fn clock(words: &mut Words<'_>) -> Parsed<HouseLine>
    ensures { Says result (by_making_rows (codes "clock") words.old) }
{
    words.exactly(1)?;
    Ok(HouseLine::Clock(words.time()?))
}

pub(crate) fn root(alloc: Global, words: &mut Words<'_>) -> Parsed<HouseLine>
    ensures { Says result (by_making_rows (codes "root") words.old) }
{
    words.at_least(0)?;
    Ok(HouseLine::Order(HouseOrder::Root(words.listeds(alloc)?)))
}

pub(crate) fn mkdir(alloc: Global, words: &mut Words<'_>) -> Parsed<HouseLine>
    ensures { Says result (by_making_rows (codes "mkdir") words.old) }
{
    words.at_least(3)?;
    Ok(HouseLine::Order(HouseOrder::Mkdir(
        words.directory()?,
        words.simple_name(alloc)?,
        words.directory()?,
        words.listeds(alloc)?,
    )))
}

pub(crate) fn repoint(alloc: Global, words: &mut Words<'_>) -> Parsed<HouseLine>
    ensures { Says result (by_making_rows (codes "repoint") words.old) }
{
    words.at_least(3)?;
    Ok(HouseLine::Order(HouseOrder::Repoint(
        words.directory()?,
        words.simple_name(alloc)?,
        words.house()?,
        words.houses(alloc)?,
    )))
}

pub(crate) fn skulk(words: &mut Words<'_>) -> Parsed<HouseLine>
    ensures { Says result (by_message_rows (codes "skulk") words.old) }
{
    words.exactly(1)?;
    Ok(HouseLine::Order(HouseOrder::Skulk(words.directory()?)))
}

#[tactic(auto, unfolding(crate::specs::PrivateLineRows::by_epoch, crate::specs::LineRows::epoch_words))]
pub(crate) fn epoch(alloc: Global, words: &mut Words<'_>) -> Parsed<HouseLine>
    ensures { Says result (by_epoch words.old) }
{
    words.at_least(3)?;
    Ok(HouseLine::Order(HouseOrder::Epoch(
        words.directory()?,
        EpochNo(words.serial()?),
        epoch_list(alloc, words)?,
    )))
}

pub(crate) fn more(alloc: Global, words: &mut Words<'_>) -> Parsed<HouseLine>
    ensures { Says result (by_message_rows (codes "more") words.old) }
{
    words.exactly(1)?;
    Ok(HouseLine::More(words.octets(alloc)?))
}

pub(crate) fn take(alloc: Global, words: &mut Words<'_>) -> Parsed<HouseLine>
    ensures { Says result (by_message_rows (codes "take") words.old) }
{
    words.exactly(1)?;
    Ok(HouseLine::Order(HouseOrder::Take(words.octets(alloc)?)))
}
