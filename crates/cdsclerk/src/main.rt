//! `cdsclerk NEAR HOUSE..`: a clerk of live houses, from standard input to standard output.
#![tactic(auto)]

use cds_base::{StdSink, StdSource, words_of};
use clerk_program::run;
use line_forms::Status;
use std::process::ExitCode;

fn main(rt: HostRuntime) -> ExitCode {
    let words = match words_of(&rt) {
        Ok(words) => words,
        Err(fault) => return ExitCode::from(Status::without_words(fault).code()),
    };
    let mut source = StdSource::new(rt.stdin());
    let mut sink = StdSink::new(rt.stdout());
    ExitCode::from(run(rt.alloc(), &words, &mut source, &mut sink).code())
}
