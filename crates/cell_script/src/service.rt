// The commands of the name service.
#![tactic(auto, unfolding(crate::specs::PrivateRows::by_service_rows))]

ghost use Rattle.std.specs.Prelude.{codes};
ghost use Rattle.cell_script.specs.PrivateRows.{Says, by_service_rows};

use crate::command::{Question, ScriptLine};
use crate::words::{Parsed, Words};
use std::alloc::Global;

pub(crate) fn export(alloc: Global, words: &mut Words<'_>) -> Parsed<ScriptLine>
    ensures { Says result (by_service_rows (codes "export") words.old) }
{
    words.exactly(4)?;
    Ok(ScriptLine::Question(Question::Export(
        words.full_name(alloc)?,
        words.interface()?,
        words.bindings(alloc)?,
        words.objects(alloc)?,
    )))
}

pub(crate) fn unexport(alloc: Global, words: &mut Words<'_>) -> Parsed<ScriptLine>
    ensures { Says result (by_service_rows (codes "unexport") words.old) }
{
    words.exactly(3)?;
    Ok(ScriptLine::Question(Question::Unexport(
        words.full_name(alloc)?,
        words.interface_or_none()?,
        words.objects(alloc)?,
    )))
}

pub(crate) fn groupadd(alloc: Global, words: &mut Words<'_>) -> Parsed<ScriptLine>
    ensures { Says result (by_service_rows (codes "groupadd") words.old) }
{
    words.exactly(2)?;
    Ok(ScriptLine::Question(Question::Groupadd(words.full_name(alloc)?, words.full_name(alloc)?)))
}

pub(crate) fn groupdel(alloc: Global, words: &mut Words<'_>) -> Parsed<ScriptLine>
    ensures { Says result (by_service_rows (codes "groupdel") words.old) }
{
    words.exactly(2)?;
    Ok(ScriptLine::Question(Question::Groupdel(words.full_name(alloc)?, words.full_name(alloc)?)))
}

pub(crate) fn profadd(alloc: Global, words: &mut Words<'_>) -> Parsed<ScriptLine>
    ensures { Says result (by_service_rows (codes "profadd") words.old) }
{
    words.exactly(5)?;
    Ok(ScriptLine::Question(Question::Profadd(
        words.full_name(alloc)?,
        words.element_interface()?,
        words.full_name(alloc)?,
        words.priority()?,
        words.note(alloc)?,
    )))
}

pub(crate) fn profdel(alloc: Global, words: &mut Words<'_>) -> Parsed<ScriptLine>
    ensures { Says result (by_service_rows (codes "profdel") words.old) }
{
    words.exactly(3)?;
    Ok(ScriptLine::Question(Question::Profdel(
        words.full_name(alloc)?,
        words.element_interface()?,
        words.full_name(alloc)?,
    )))
}

pub(crate) fn import(alloc: Global, words: &mut Words<'_>) -> Parsed<ScriptLine>
    ensures { Says result (by_service_rows (codes "import") words.old) }
{
    words.exactly(6)?;
    let house = words.house()?;
    let confidence = words.confidence()?;
    let name = words.full_name(alloc)?;
    let interface = words.interface()?;
    let object = words.object()?;
    let (tcp, udp) = words.protocols()?;
    Ok(ScriptLine::Question(Question::Import(house, confidence, name, interface, object, tcp, udp)))
}
