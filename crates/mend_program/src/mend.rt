// The whole program over a source and a sink.
ghost use Rattle.std.specs.Prelude.{◌≡◌, ◌↔◌, None, Some, IfOk, IfSome, ℕ, map, string_bytes};
ghost use Rattle.std.specs.Option.{option_map};
ghost use Rattle.mend_program.specs.MendForm.{mend_form};
ghost use Rattle.cds_base.specs.RunEnds.{run_of};
ghost use Rattle.line_forms.specs.Runs.{Ended};
ghost use Rattle.line_forms.specs.declared.endings.Status.{Status as Status'};
ghost use Rattle.cell_script.specs.Words.{most_directory, most_house, number_to};
ghost use Rattle.house_directory.specs.HouseMessages.{numbers_of};
ghost use Rattle.mend_program.specs.Mended.{IsMending};
ghost use Rattle.mend_program.specs.ProgramWords.{are_houses, directory_named, houses_named, numbers_in};

use crate::mending::mend_directory;
use cds_base::{Sink, Source};
use cds_stamps::{DirId, HouseNo};
use cell_script::number_up_to;
use line_forms::Status;
use std::alloc::{AllocError, Global};

/// The directory that the words of the command line name: one number, as the lines of a script have
/// it, alone or before a `-` and houses.
fn directory_in(words: &[String]) -> Option<DirId>
    ensures { directory_named (map string_bytes words.now) ≡ option_map (λ dir. dir.0) result }
{
    match words {
        [word] => directory_by(word),
        [word, dash, houses @ ..] => {
            if dash.as_str() == "-" && are_houses(houses) {
                directory_by(word)
            } else {
                None
            }
        }
        _ => None,
    }
}

// The directory of a word.
fn directory_by(word: &String) -> Option<DirId>
    ensures { number_to most_directory (string_bytes word.now) ≡ option_map (λ dir. dir.0) result }
{
    match number_up_to(word.as_bytes(), u64::from(u32::MAX)) {
        Some(number) => Some(DirId(number as u32)),
        None => None,
    }
}

// The house of a word.
fn house_by(word: &String) -> Option<HouseNo>
    ensures { number_to most_house (string_bytes word.now) ≡ option_map (λ house. house.0) result }
{
    match number_up_to(word.as_bytes(), u64::from(u8::MAX)) {
        Some(number) => Some(HouseNo(number as u8)),
        None => None,
    }
}

// Whether these words are one or more numbers of houses.
fn are_houses(words: &[String]) -> bool
    ensures { result ≡ are_houses (map string_bytes words.now) }
{
    for word in words {
        if house_by(word).is_none() {
            return false;
        }
    }
    !words.is_empty()
}

/// The houses that the words of the command line leave out.
fn houses_in(alloc: Global, words: &[String]) -> Result<Vec<HouseNo>, AllocError>
    ensures { IfOk result
        (λ v. numbers_of v.items ≡ houses_named (map string_bytes words.now)) }
{
    match words {
        [_, _, houses @ ..] => numbers_in(alloc, houses),
        _ => Ok(Vec::new(alloc)),
    }
}

// The houses of these words.
fn numbers_in(alloc: Global, words: &[String]) -> Result<Vec<HouseNo>, AllocError>
    ensures { IfOk result
        (λ v. numbers_of v.items ≡ numbers_in (map string_bytes words.now)) }
{
    let mut houses = Vec::new(alloc);
    for word in words {
        if let Some(house) = house_by(word) {
            houses.push(house)?;
        }
    }
    Ok(houses)
}

/// The whole program: the words of the command line, what it reads and what it writes.
pub fn run<S: Source, K: Sink>(
    alloc: Global,
    words: &[String],
    source: &mut S,
    sink: &mut K,
) -> Status
    ensures usage { (result ≡ Status.Usage)
        ↔ (directory_named (map string_bytes words.now) ≡ None) }
    ensures unused { result ≡ Status.Usage → (source.new ≡ source.old) × (sink.new ≡ sink.old) }
    ensures ends { IfSome (directory_named (map string_bytes words.now))
        (λ dir. Ended (mend_form dir (houses_named (map string_bytes words.now)))
        (run_of S.Source K.Sink source.old source.new sink.old sink.new) result) }
    ensures mends { (dir : ℕ) → directory_named (map string_bytes words.now) ≡ Some dir
        → result ≡ Status.Ok
        → IsMending dir (houses_named (map string_bytes words.now))
        (run_of S.Source K.Sink source.old source.new sink.old sink.new) }
{
    match directory_in(words) {
        Some(dir) => mend_by_words(alloc, words, dir, source, sink),
        None => Status::Usage,
    }
}

// The commands that mend this directory, without the houses that the words name.
fn mend_by_words<S: Source, K: Sink>(
    alloc: Global,
    words: &[String],
    dir: DirId,
    source: &mut S,
    sink: &mut K,
) -> Status
    ensures { Ended (mend_form dir.0 (houses_named (map string_bytes words.now)))
        (run_of S.Source K.Sink source.old source.new sink.old sink.new) result }
{
    match houses_in(alloc, words) {
        Ok(without) => mend_directory(alloc, dir, without, source, sink),
        Err(AllocError) => Status::OutOfMemory,
    }
}
