// Lines to what they say.
ghost use Rattle.std.specs.Prelude.{◌≡◌, Ok, Err, None, IfSome};
ghost use Rattle.cds_stamps.specs.Outcomes.{Answers};
ghost use Rattle.cds_stamps.specs.declared.alloc_or.AllocOr.TheVariants.{Fault};
ghost use Rattle.cell_script.specs.Words.{words_of};
ghost use Rattle.cell_script.specs.CommandRows.{update_row};
ghost use Rattle.house_lines.specs.LineRows.{early_by, early_fault, said_by, said_in};
ghost use Rattle.house_lines.specs.PrivateLineRows.{Says, by_making_rows, by_message_rows, by_question_rows, by_update_rows, saying_by};

use crate::line::{HouseLine, HouseOrder};
use crate::{questions, replicas};
use cds_stamps::AllocOr;
use cell_script::{ParseFault, Parsed, UpdateWord, Words};
use std::alloc::Global;

// What the words after the first one say: an epoch, or another line.
#[tactic(auto, unfolding(crate::specs::PrivateLineRows::saying_by))]
fn said_after(alloc: Global, word: &[u8], words: &mut Words<'_>) -> Parsed<HouseLine>
    ensures { Says result (saying_by word.now words.old) }
{
    if word == b"epoch".as_slice() {
        return replicas::epoch(alloc, words);
    }
    made(alloc, word, words)
}

// What they say if the first one is of a line that makes the house or directories, or of another.
#[tactic(auto, unfolding(crate::specs::PrivateLineRows::by_making_rows))]
fn made(alloc: Global, word: &[u8], words: &mut Words<'_>) -> Parsed<HouseLine>
    ensures { Says result (by_making_rows word.now words.old) }
{
    if word == b"house".as_slice() {
        return replicas::house(words);
    }
    if word == b"clock".as_slice() {
        return replicas::clock(words);
    }
    if word == b"root".as_slice() {
        return replicas::root(alloc, words);
    }
    if word == b"mkdir".as_slice() {
        return replicas::mkdir(alloc, words);
    }
    if word == b"repoint".as_slice() {
        return replicas::repoint(alloc, words);
    }
    updated(alloc, word, words)
}

// An update of an entry, or a line of a later kind.
#[tactic(auto, using(crate::proofs::LineUpdates::no_update))]
fn updated(alloc: Global, word: &[u8], words: &mut Words<'_>) -> Parsed<HouseLine>
    ensures { Says result (by_update_rows word.now words.old) }
{
    match UpdateWord::named(word) {
        Some(kind) => update(alloc, kind, words),
        None => handed(alloc, word, words),
    }
}

// An update of an entry.
#[tactic(auto, using(crate::proofs::LineUpdates::update_said, crate::proofs::LineUpdates::update_early))]
fn update(alloc: Global, kind: UpdateWord, words: &mut Words<'_>) -> Parsed<HouseLine>
    ensures { Says result (by_update_rows (update_row kind).word words.old) }
{
    words.exactly(1 + kind.count())?;
    Ok(HouseLine::Order(HouseOrder::Update(words.directory()?, kind.read(alloc, words)?)))
}

// A skulk, or octets of a message, or a line of a later kind.
#[tactic(auto, unfolding(crate::specs::PrivateLineRows::by_message_rows))]
fn handed(alloc: Global, word: &[u8], words: &mut Words<'_>) -> Parsed<HouseLine>
    ensures { Says result (by_message_rows word.now words.old) }
{
    if word == b"skulk".as_slice() {
        return replicas::skulk(words);
    }
    if word == b"more".as_slice() {
        return replicas::more(alloc, words);
    }
    if word == b"take".as_slice() {
        return replicas::take(alloc, words);
    }
    asked(alloc, word, words)
}

// A question, or the fault of a word of no command.
#[tactic(auto, unfolding(crate::specs::PrivateLineRows::by_question_rows))]
fn asked(alloc: Global, word: &[u8], words: &mut Words<'_>) -> Parsed<HouseLine>
    ensures { Says result (by_question_rows word.now words.old) }
{
    if word == b"dump".as_slice() {
        return questions::dump(words);
    }
    if word == b"look".as_slice() {
        return questions::look(alloc, words);
    }
    if word == b"show".as_slice() {
        return questions::show(alloc, words);
    }
    if word == b"status".as_slice() {
        return questions::status(words);
    }
    if word == b"directories".as_slice() {
        return questions::directories(words);
    }
    if word == b"image".as_slice() {
        return questions::image(words);
    }
    Err(AllocOr::Fault(ParseFault::UnknownCommand(1)))
}

/// What a line says; nothing, if it has no words or is a comment, which takes no memory. A fault
/// says the first word of no command; or else that there are too few or too many words; or else the
/// first word that is not of its form.
#[tactic(auto, using(cell_script::proofs::Reading::nothing_said, cell_script::proofs::Reading::nothing_early, cell_script::proofs::Reading::something_said, cell_script::proofs::Reading::something_early, cell_script::proofs::Reading::some_line_says))]
pub fn parse_house_line(
    alloc: Global,
    line: &[u8],
) -> Result<Option<HouseLine>, AllocOr<ParseFault>>
    ensures answer { Answers result (said_in (words_of line.now)) }
    ensures passed_over { said_in (words_of line.now) ≡ Ok None → result ≡ Ok None }
    ensures early { IfSome (early_fault (words_of line.now)) (λ fault. result ≡ Err (Fault fault)) }
{
    let mut words = Words::of(line);
    match words.first() {
        None => Ok(None),
        Some(word) => Ok(Some(line_after(alloc, word, &mut words)?)),
    }
}

// What the words after the first one say, or their fault.
#[tactic(auto, using(crate::proofs::LineFamilies::says_answers, crate::proofs::LineFamilies::says_early))]
fn line_after(alloc: Global, word: &[u8], words: &mut Words<'_>) -> Parsed<HouseLine>
    ensures answer { Answers result (said_by word.now words.old) }
    ensures early { IfSome (early_by word.now words.old) (λ fault. result ≡ Err (Fault fault)) }
{
    said_after(alloc, word, words)
}
