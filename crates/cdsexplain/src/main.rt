//! `cdsexplain FOLDER..`: a script that explains the journals of houses.
#![tactic(auto)]

mod folder;

use cds_base::{StdSink, words_of};
use explain_program::run;
use folder::{folders_of, without_words};
use std::process::ExitCode;

fn main(rt: HostRuntime) -> ExitCode {
    let words = match words_of(&rt) {
        Ok(words) => words,
        Err(fault) => return ExitCode::from(without_words(fault).code()),
    };
    let status = match folders_of(&rt, &words) {
        Ok(folders) => run(rt.alloc(), &folders, &mut StdSink::new(rt.stdout())),
        Err(status) => status,
    };
    ExitCode::from(status.code())
}
