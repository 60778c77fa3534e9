// The form `check`, as one that answers line by line.
ghost use Rattle.std.specs.Prelude.{◌≡◌, ◌<◌, ◌≤◌};
ghost use Rattle.cds_stamps.specs.Outcomes.{Answers};
ghost use Rattle.cell_script.specs.CommandRows.{said_in};
ghost use Rattle.cell_script.specs.Words.{words_of};
ghost use Rattle.reply_buffer.specs.LineEnds.{Ends};
ghost use Rattle.cell_replay.specs.Checking.{Counts, check_rule, line_check};
ghost use Rattle.cell_replay.specs.PrivateChecks.{CountsTo, has_command};

use crate::check::Tally;
use cds_base::LineFault;
use cds_stamps::AllocOr;
use cell_script::{ParseFault, parse_line};
use line_forms::LineForm;
use reply_buffer::{LineEnd, Waiting, print_line_fault, reply_to_fault};
use std::alloc::{AllocError, Global};

impl LineForm for Tally {
    ghost State = { Counts };

    ghost rule = { check_rule };

    ghost is_at = { CountsTo };

    ghost is_kept = { λ t s. Unit {0} };

    ghost is_broken = { λ t number s line. Unit {0} };

    ghost holds = { λ end form. Unit {0} };

    ghost counted = { λ t. t.lines };

    ghost keeps = { λ t s at. tt };

    fn answer(
        &mut self,
        alloc: Global,
        number: u32,
        line: &[u8],
        waiting: &mut Waiting,
    ) -> LineEnd {
        check_line(alloc, self, number, line, waiting)
    }

    fn print_end(&self, alloc: Global) -> Result<Vec<u8>, AllocError> {
        self.print(alloc)
    }

    fn print_fault(&self, alloc: Global, fault: LineFault) -> Result<Vec<u8>, AllocError> {
        print_line_fault(alloc, fault)
    }
}

// Whether a line says a command. (This is apart, since the drop of a command is long to prove.)
fn says_command(alloc: Global, line: &[u8]) -> Result<bool, AllocOr<ParseFault>>
    ensures { Answers result (has_command (said_in (words_of line.now))) }
{
    Ok(parse_line(alloc, line)?.is_some())
}

// Counts a line, and looks whether it is in order.
#[tactic(auto, using(crate::proofs::CheckedLines::checked_whether))]
fn check_line(
    alloc: Global,
    tally: &mut Tally,
    number: u32,
    line: &[u8],
    waiting: &mut Waiting,
) -> LineEnd
    requires { tally.old.lines < number }
    ensures reply { Ends result
        (line_check number tally.old.commands (said_in (words_of line.now))) waiting.old waiting.new
        (CountsTo tally.new) }
    ensures counted { tally.new.lines ≤ number }
{
    match says_command(alloc, line) {
        Ok(has_command) => {
            tally.count(number, has_command);
            LineEnd::GoesOn
        }
        Err(AllocOr::Fault(fault)) => reply_to_fault(alloc, number, fault, waiting),
        Err(AllocOr::OutOfMemory) => LineEnd::NoMemory,
    }
}
