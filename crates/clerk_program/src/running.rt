// The whole program over a source and a sink.
ghost use Rattle.std.specs.Prelude.{◌≡◌, IfOk, map, string_bytes};
ghost use Rattle.cds_base.specs.RunEnds.{run_of};
ghost use Rattle.clerk_program.specs.ClerkRuns.{HousesEnd, IsNew, WordsEnd};
ghost use Rattle.clerk_program.specs.ProgramWords.{houses_said};

use crate::serving::serve;
use crate::words::{houses_in, near_first};
use cds_base::{Sink, Source};
use cds_stamps::HouseNo;
use clerk_turns::Clerk;
use line_forms::Status;
use std::alloc::{AllocError, Global};

// A clerk that has no command.
fn new_clerk(alloc: Global, near: HouseNo, houses: &[HouseNo]) -> Result<Clerk, AllocError>
    ensures { IfOk result (IsNew near houses.now) }
{
    Ok(Clerk::new(alloc, near, near_first(alloc, near, houses)?))
}

// A clerk of these houses, of which the first one is near, over a source and a sink.
fn run_with<S: Source, K: Sink>(
    alloc: Global,
    houses: &[HouseNo],
    source: &mut S,
    sink: &mut K,
) -> Status
    ensures { HousesEnd houses.now
        (run_of S.Source K.Sink source.old source.new sink.old sink.new)
        (source.new ≡ source.old) (sink.new ≡ sink.old) result }
{
    match houses {
        [near, houses @ ..] => match new_clerk(alloc, *near, houses) {
            Ok(clerk) => serve(alloc, clerk, source, sink),
            Err(_) => Status::OutOfMemory,
        },
        [] => Status::Usage,
    }
}

/// The whole program: the words of the command line, what it reads and what it writes. The words
/// are the house that is near, and the houses that are asked where the root directory is.
pub fn run<S: Source, K: Sink>(
    alloc: Global,
    words: &[String],
    source: &mut S,
    sink: &mut K,
) -> Status
    ensures { WordsEnd (houses_said (map string_bytes words.now))
        (run_of S.Source K.Sink source.old source.new sink.old sink.new)
        (source.new ≡ source.old) (sink.new ≡ sink.old) result }
{
    match houses_in(alloc, words) {
        Ok(Some(houses)) => run_with(alloc, &houses, source, sink),
        Ok(None) => Status::Usage,
        Err(_) => Status::OutOfMemory,
    }
}
