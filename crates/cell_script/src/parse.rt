// Lines to commands.
ghost use Rattle.std.specs.Prelude.{◌≡◌, Ok, Err, None, IfSome};
ghost use Rattle.cds_stamps.specs.Outcomes.{Answers};
ghost use Rattle.cds_stamps.specs.declared.alloc_or.AllocOr.TheVariants.{Fault};
ghost use Rattle.cell_script.specs.Words.{words_of};
ghost use Rattle.cell_script.specs.CommandRows.{said_by, early_by, said_in, early_fault, update_row};
ghost use Rattle.cell_script.specs.PrivateRows.{Says, by_all_rows, by_update_rows, by_replica_rows, befallen, by_question_rows, by_service_rows};

use crate::command::{Command, ScriptLine};
use crate::fault::ParseFault;
use crate::update_word::UpdateWord;
use crate::words::{Parsed, Words};
use crate::{commands, questions, replicas, service};
use cds_stamps::AllocOr;
use std::alloc::Global;

/// What the words after the first one say, whatever the first one is: a command, or the fault that
/// tells that no command has this first word; or else that there are too few or too many words; or
/// else the first word that is not of its form.
#[tactic(auto, using(crate::proofs::Families::says_answers, crate::proofs::Families::says_early))]
pub fn line_behind(alloc: Global, word: &[u8], words: &mut Words<'_>) -> Parsed<ScriptLine>
    ensures answer { Answers result (said_by word.now words.old) }
    ensures early { IfSome (early_by word.now words.old) (λ fault. result ≡ Err (Fault fault)) }
{
    made(alloc, word, words)
}

// What they say where the first one is of a command that makes houses or directories, or of
// another.
#[tactic(auto, unfolding(crate::specs::PrivateRows::by_all_rows))]
fn made(alloc: Global, word: &[u8], words: &mut Words<'_>) -> Parsed<ScriptLine>
    ensures { Says result (by_all_rows word.now words.old) }
{
    if word == b"house".as_slice() {
        return commands::house(words);
    }
    if word == b"clock".as_slice() {
        return commands::clock(words);
    }
    if word == b"root".as_slice() {
        return commands::root(alloc, words);
    }
    if word == b"mkdir".as_slice() {
        return commands::mkdir(alloc, words);
    }
    if word == b"repoint".as_slice() {
        return commands::repoint(alloc, words);
    }
    updated(alloc, word, words)
}

// An update of an entry, or a command of a later kind.
#[tactic(auto, using(crate::proofs::Updates::no_update))]
fn updated(alloc: Global, word: &[u8], words: &mut Words<'_>) -> Parsed<ScriptLine>
    ensures { Says result (by_update_rows word.now words.old) }
{
    match UpdateWord::named(word) {
        Some(kind) => update(alloc, kind, words),
        None => replicated(alloc, word, words),
    }
}

// An update of an entry at a house.
#[tactic(auto, using(crate::proofs::Updates::update_said, crate::proofs::Updates::update_early))]
fn update(alloc: Global, kind: UpdateWord, words: &mut Words<'_>) -> Parsed<ScriptLine>
    ensures { Says result (by_update_rows (update_row kind).word words.old) }
{
    words.exactly(2 + kind.count())?;
    Ok(ScriptLine::Cell(Command::Update(
        words.house()?,
        words.directory()?,
        kind.read(alloc, words)?,
    )))
}

// A command about all replicas of a directory, or one of a later kind.
#[tactic(auto, unfolding(crate::specs::PrivateRows::by_replica_rows))]
fn replicated(alloc: Global, word: &[u8], words: &mut Words<'_>) -> Parsed<ScriptLine>
    ensures { Says result (by_replica_rows word.now words.old) }
{
    if word == b"epoch".as_slice() {
        return replicas::epoch(alloc, words);
    }
    if word == b"skulk".as_slice() {
        return replicas::skulk(words);
    }
    befallen(alloc, word, words)
}

// What befalls a message or a house, or a question.
#[tactic(auto, unfolding(crate::specs::PrivateRows::befallen))]
fn befallen(alloc: Global, word: &[u8], words: &mut Words<'_>) -> Parsed<ScriptLine>
    ensures { Says result (befallen word.now words.old) }
{
    if word == b"deliver".as_slice() {
        return replicas::deliver(words);
    }
    if word == b"lose".as_slice() {
        return replicas::lose(words);
    }
    if word == b"crash".as_slice() {
        return replicas::crash(words);
    }
    if word == b"start".as_slice() {
        return replicas::start(words);
    }
    asked(alloc, word, words)
}

// A question, or a command of the name service.
#[tactic(auto, unfolding(crate::specs::PrivateRows::by_question_rows))]
fn asked(alloc: Global, word: &[u8], words: &mut Words<'_>) -> Parsed<ScriptLine>
    ensures { Says result (by_question_rows word.now words.old) }
{
    if word == b"read".as_slice() {
        return questions::read(alloc, words);
    }
    if word == b"readlink".as_slice() {
        return questions::readlink(alloc, words);
    }
    if word == b"dump".as_slice() {
        return questions::dump(words);
    }
    if word == b"octets".as_slice() {
        return questions::octets(words);
    }
    if word == b"decode".as_slice() {
        return questions::decode(alloc, words);
    }
    served(alloc, word, words)
}

// A command that finds or changes what servers export, of groups and of profiles, or
// the fault of a word of no command.
#[tactic(auto, unfolding(crate::specs::PrivateRows::by_service_rows))]
fn served(alloc: Global, word: &[u8], words: &mut Words<'_>) -> Parsed<ScriptLine>
    ensures { Says result (by_service_rows word.now words.old) }
{
    if word == b"export".as_slice() {
        return service::export(alloc, words);
    }
    if word == b"unexport".as_slice() {
        return service::unexport(alloc, words);
    }
    if word == b"groupadd".as_slice() {
        return service::groupadd(alloc, words);
    }
    if word == b"groupdel".as_slice() {
        return service::groupdel(alloc, words);
    }
    if word == b"profadd".as_slice() {
        return service::profadd(alloc, words);
    }
    if word == b"profdel".as_slice() {
        return service::profdel(alloc, words);
    }
    if word == b"import".as_slice() {
        return service::import(alloc, words);
    }
    Err(AllocOr::Fault(ParseFault::UnknownCommand(1)))
}

/// What a line says: a command, or nothing where it has no words or is a comment, which takes no
/// memory. A fault tells the first word of no command; or else that there are too few or too many
/// words; or else the first word that is not of its form.
#[tactic(auto, using(crate::proofs::Reading::nothing_said, crate::proofs::Reading::nothing_early, crate::proofs::Reading::something_said, crate::proofs::Reading::something_early, crate::proofs::Reading::some_line_says))]
pub fn parse_line(alloc: Global, line: &[u8]) -> Result<Option<ScriptLine>, AllocOr<ParseFault>>
    ensures answer { Answers result (said_in (words_of line.now)) }
    ensures passed_over { said_in (words_of line.now) ≡ Ok None → result ≡ Ok None }
    ensures early { IfSome (early_fault (words_of line.now)) (λ fault. result ≡ Err (Fault fault)) }
{
    let mut words = Words::of(line);
    match words.first() {
        None => Ok(None),
        Some(word) => Ok(Some(line_behind(alloc, word, &mut words)?)),
    }
}
