//! `cdshouse FOLDER`: one house, whose folder keeps its journal, from standard input to standard
//! output.
#![tactic(auto)]

mod folder;

use cds_base::{StdSink, StdSource, words_of};
use folder::HostFolder;
use house_program::{Status, run};
use std::process::ExitCode;

// How the process of the house in the folder of these words ends.
fn status_of(rt: &HostRuntime, words: &[String]) -> Status {
    if words.len() != 1 || words[0].is_empty() {
        return Status::Usage;
    }
    let mut folder = HostFolder::new(rt, words[0].as_str());
    let mut source = StdSource::new(rt.stdin());
    let mut sink = StdSink::new(rt.stdout());
    run(rt.alloc(), &mut folder, &mut source, &mut sink)
}

fn main(rt: HostRuntime) -> ExitCode {
    let words = match words_of(&rt) {
        Ok(words) => words,
        Err(fault) => return ExitCode::from(Status::without_words(fault).code()),
    };
    ExitCode::from(status_of(&rt, &words).code())
}
