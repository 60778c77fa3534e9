// The run over a source and a sink.
ghost use Rattle.std.specs.Prelude.{◌≡◌, ◌≤◌, ◌↔◌, ℕ, None, Some, IfOk, IfSome, map, string_bytes};
ghost use Rattle.cell_model.specs.Cells.{empty_cell};
ghost use Rattle.line_forms.specs.Leaving.{Leaves};
ghost use Rattle.line_forms.specs.Readings.{by_lines};
ghost use Rattle.cds_base.specs.RunEnds.{run_of};
ghost use Rattle.line_forms.specs.Runs.{Ended};
ghost use Rattle.line_forms.specs.LineRules.{dialogue_rule};
ghost use Rattle.script_replay.specs.Scripts.{IsReplay, IsReplayBy};
ghost use Rattle.clerk_replay.specs.Clerking.{clerk_dialogue, start};
ghost use Rattle.inquire_replay.specs.Inquiring.{inquire_dialogue};
ghost use Rattle.journal_replay.specs.CellDisks.{AreNew, AreUsable};
ghost use Rattle.journal_replay.specs.CellJournals.{empty_state};
ghost use Rattle.journal_replay.specs.JournalRules.{AreOnDisks, ArePut, journal_rule};
ghost use Rattle.cell_replay.specs.FormWords.{form_of};
ghost use Rattle.cell_replay.specs.Forms.{ReadsFew, ReadsNothing, reading_of};
ghost use Rattle.cell_replay.specs.JournalRuns.{IsJournalReplay};
ghost use Rattle.cell_replay.specs.PrivateForms.{IsForm};
ghost use Rattle.cell_replay.specs.declared.limits.TheConstants.{MOST_KEPT};

use crate::check::Tally;
use crate::forms::{Form, form_in};
use crate::load::load;
use crate::towers::print_towers;
use crate::untowers::Untowers;
use crate::whole::{Whole, say_whole};
use cds_base::{Sink, Source};
use clerk_replay::ClerkReplayer;
use house_journal::MemDisk;
use inquire_replay::Inquirer;
use journal_replay::Journals;
use line_forms::{Status, serve_form, serve_lines};
use script_replay::Replayer;
use std::alloc::{AllocError, Global};

/// The form `journal` over these disks, that of house H at place H - 1: a script is replayed on a
/// cell whose houses put their images into journals. All disks come back at each ending, with what
/// the houses had put, and none of them is set to stop.
pub fn run_journal<S: Source, K: Sink>(
    alloc: Global,
    source: &mut S,
    sink: &mut K,
    disks: &mut Vec<MemDisk>,
) -> Status
    requires { AreNew disks.old.items }
    ensures ends { Ended (by_lines journal_rule empty_state)
        (run_of S.Source K.Sink source.old source.new sink.old sink.new) result }
    ensures transcript { result ≡ Status.Ok
        → IsJournalReplay
        (run_of S.Source K.Sink source.old source.new sink.old sink.new) }
    ensures disks { Leaves journal_rule (AreOnDisks disks.new.items) (ArePut disks.new.items)
        empty_state
        (run_of S.Source K.Sink source.old source.new sink.old sink.new) result }
    ensures usable { AreUsable disks.new.items }
{
    match Journals::new(alloc, disks) {
        Ok(mut journals) => {
            let status = serve_form(alloc, &mut journals, source, sink);
            *disks = journals.into_disks();
            status
        }
        Err(AllocError) => Status::OutOfMemory,
    }
}

/// Answers the lines of the source, with a clerk that keeps so many answers.
fn serve_by_clerk<S: Source, K: Sink>(
    alloc: Global,
    room: u32,
    source: &mut S,
    sink: &mut K,
) -> Status
    requires least { 1 ≤ room }
    requires most { room ≤ MOST_KEPT }
    ensures { Ended (by_lines (dialogue_rule clerk_dialogue) (start room))
        (run_of S.Source K.Sink source.old source.new sink.old sink.new) result }
{
    match ClerkReplayer::new(alloc, room as usize) {
        Ok(replayer) => serve_lines(alloc, replayer, source, sink),
        Err(AllocError) => Status::OutOfMemory,
    }
}

/// The form `journal` over disks of its own.
fn journal_over_new_disks<S: Source, K: Sink>(alloc: Global, source: &mut S, sink: &mut K) -> Status
    ensures { Ended (by_lines journal_rule empty_state)
        (run_of S.Source K.Sink source.old source.new sink.old sink.new) result }
{
    match new_disks(alloc) {
        Ok(mut disks) => run_journal(alloc, source, sink, &mut disks),
        Err(AllocError) => Status::OutOfMemory,
    }
}

// How many disks there are: one of each house number.
const DISKS: usize = 255;

/// A new disk for each house number, for `run_journal`.
pub fn new_disks(alloc: Global) -> Result<Vec<MemDisk>, AllocError>
    ensures { IfOk result (λ v. AreNew v.items) }
{
    let mut disks = Vec::new(alloc);
    'disks: for made in 0..DISKS {
        disks.push(MemDisk::new(alloc))?;
    }
    Ok(disks)
}

/// The work of a form.
fn serve<S: Source, K: Sink>(alloc: Global, form: Form, source: &mut S, sink: &mut K) -> Status
    requires { IsForm form }
    ensures ends { Ended (reading_of form)
        (run_of S.Source K.Sink source.old source.new sink.old sink.new) result }
    ensures few { ReadsFew form
        (run_of S.Source K.Sink source.old source.new sink.old sink.new) }
    ensures unread { ReadsNothing (Some form) → source.new ≡ source.old }
{
    match form {
        Form::Run => serve_lines(alloc, Replayer::new(alloc), source, sink),
        Form::Check => serve_lines(alloc, Tally::new(), source, sink),
        Form::Load(rounds) => load(alloc, rounds, sink),
        Form::Clerk(room) => serve_by_clerk(alloc, room, source, sink),
        Form::Towers => print_towers(alloc, source, sink),
        Form::Migrate => say_whole(alloc, Whole::Migrate, source, sink),
        Form::Audit(dir) => say_whole(alloc, Whole::Audit(dir), source, sink),
        Form::Journal => journal_over_new_disks(alloc, source, sink),
        Form::Untowers => match Untowers::new(alloc) {
            Ok(untowers) => serve_lines(alloc, untowers, source, sink),
            Err(AllocError) => Status::OutOfMemory,
        },
        Form::Inquire => serve_lines(alloc, Inquirer::new(alloc), source, sink),
    }
}

/// The whole program: the words of the command line, what it reads and what it writes.
pub fn run<S: Source, K: Sink>(
    alloc: Global,
    words: &[String],
    source: &mut S,
    sink: &mut K,
) -> Status
    ensures usage { (result ≡ Status.Usage) ↔ (form_of (map string_bytes words.now) ≡ None) }
    ensures unused { result ≡ Status.Usage → (source.new ≡ source.old) × (sink.new ≡ sink.old) }
    ensures unread { ReadsNothing (form_of (map string_bytes words.now)) → source.new ≡ source.old }
    ensures ends { IfSome (form_of (map string_bytes words.now)) (λ form. Ended (reading_of form)
        (run_of S.Source K.Sink source.old source.new sink.old sink.new) result) }
    ensures few { IfSome (form_of (map string_bytes words.now)) (λ form. ReadsFew form
        (run_of S.Source K.Sink source.old source.new sink.old sink.new)) }
    ensures transcript { form_of (map string_bytes words.now) ≡ Some Form.Run → result ≡ Status.Ok
        → IsReplay (run_of S.Source K.Sink source.old source.new sink.old sink.new) }
    ensures inquired { form_of (map string_bytes words.now) ≡ Some Form.Inquire
        → result ≡ Status.Ok → IsReplayBy inquire_dialogue empty_cell
        (run_of S.Source K.Sink source.old source.new sink.old sink.new) }
    ensures clerked { (room : ℕ) → form_of (map string_bytes words.now) ≡ Some (Form.Clerk room)
        → result ≡ Status.Ok
        → IsReplayBy clerk_dialogue (start room)
        (run_of S.Source K.Sink source.old source.new sink.old sink.new) }
    ensures journaled { form_of (map string_bytes words.now) ≡ Some Form.Journal
        → result ≡ Status.Ok
        → IsJournalReplay
        (run_of S.Source K.Sink source.old source.new sink.old sink.new) }
{
    match form_in(words) {
        Some(form) => serve(alloc, form, source, sink),
        None => Status::Usage,
    }
}
