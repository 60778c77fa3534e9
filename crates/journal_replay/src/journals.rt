// The form `journal`: each line is replayed on a cell, whose houses put their images into journals.
ghost use Rattle.std.specs.Prelude.{◌≡◌, ◌++◌, false, OnOk, OnErr};
ghost use Rattle.std.proofs.Props.{props};
ghost use Rattle.journal_forms.specs.JournalTexts.{journal_text};
ghost use Rattle.journal_replay.specs.CellDisks.{AreKept};
ghost use Rattle.journal_replay.specs.KeptProofs.{kept_prop};

use crate::keeper::Keeper;
use cds_stamps::AllocOr;
use disk_journals::Unkept;
use house_journal::MemDisk;
use journal_forms::{JournalAnswer, JournalLine, parse_journal_line, print_journal_answer};
use reply_buffer::{LineEnd, Waiting, reply_to_fault};
use std::alloc::{AllocError, Global};

/// A cell, the journals of its houses, and their disks: that of house H at place H - 1.
#[derive(Drop)]
pub struct Journals {
    keeper: Keeper,
    // Whether a line was given up: then no other is answered.
    spent: bool,
    ghost ready: { spent ≡ false → AreKept keeper.houses.items keeper.disks.items } by { Prim.hlevel (props, kept_prop) },
}

// The text of an answer waits after the others. That of a line of a script is written there. (This
// is apart, since the drop of an answer is long to prove.)
fn add_text(
    alloc: Global,
    number: u32,
    answer: JournalAnswer,
    waiting: &mut Waiting,
) -> Result<(), AllocError>
    ensures ok { OnOk result (waiting.new ≡ waiting.old ++ journal_text number answer) }
    ensures err { OnErr result (waiting.new ≡ waiting.old) }
{
    if let JournalAnswer::Plain(answer) = &answer {
        return waiting.add_answer(alloc, number, answer);
    }
    let text = print_journal_answer(alloc, number, &answer)?;
    waiting.add(&text)
}

impl Journals {
    ghost use Rattle.std.specs.Prelude.{◌++◌, ◌+◌, ◌<◌, ◌≤◌, [], Some, Ok, IfOk, IfErr, OnOk, OnErr};
    ghost use Rattle.cds_base.specs.declared.scan.TheConstants.{MOST_LINES};
    ghost use Rattle.cell_script.specs.Words.{words_of};
    ghost use Rattle.journal_forms.specs.JournalLines.{HasNumbers, said_in};
    ghost use Rattle.reply_buffer.specs.LineEnds.{Ends};
    ghost use Rattle.journal_replay.specs.CellJournals.{JournaledCell, empty_state, journal_response, lacks_room, puts_in};
    ghost use Rattle.journal_replay.specs.CellJournals.{reply_text, response_to, state_after};
    ghost use Rattle.journal_replay.specs.Keeping.{LeavesDisks, StandsJournals, TellsRoom};
    ghost use Rattle.journal_replay.specs.PrivateJournals.{GivesUp, Tells};
    ghost use Rattle.journal_replay.specs.CellDisks.{AreNew, AreUsable};
    ghost use Rattle.journal_replay.specs.DiskCalls.{EndCalls, LineCalls};

    /// Over a cell without houses, and these new disks, which it takes: 255. After `OutOfMemory`
    /// they are where they were.
    pub fn new(alloc: Global, disks: &mut Vec<MemDisk>) -> Result<Journals, AllocError>
        requires { AreNew disks.old.items }
        ensures stands { IfOk result (λ j. StandsJournals j empty_state) }
        ensures steps { IfOk result (λ j. j.keeper.replayer.steps ≡ 0) }
        ensures usable { IfOk result (λ j. AreUsable j.keeper.disks.items) }
        ensures full { IfOk result (λ j. j.keeper.full ≡ false) }
        ensures taken { OnOk result (disks.new.items ≡ []) }
        ensures err { OnErr result (disks.new.items ≡ disks.old.items) }
    {
        Ok(Journals {
            keeper: Keeper::new(alloc, disks)?,
            spent: false,
        })
    }

    /// The disks.
    pub fn into_disks(self) -> Vec<MemDisk>
        ensures { result.items ≡ self.keeper.disks.items }
    {
        self.keeper.into_disks()
    }

    /// Replays a line: its reply waits after the others. Before that each house that the line
    /// changed puts its image into its journal. After `NoMemory` and `Full` no line is answered.
    pub fn replay_line(
        &mut self,
        alloc: Global,
        number: u32,
        line: &[u8],
        waiting: &mut Waiting,
    ) -> LineEnd
        requires fewer { self.old.keeper.replayer.steps < number }
        requires most { number ≤ MOST_LINES }
        ensures reply { (s : JournaledCell) → StandsJournals self.old s
            → Ends result (journal_response number s line.now) waiting.old waiting.new
            (StandsJournals self.new) }
        ensures disks { (s : JournaledCell) → StandsJournals self.old s
            → LeavesDisks result s (said_in (words_of line.now)) self.new }
        ensures calls { (s : JournaledCell) → StandsJournals self.old s
            → EndCalls result s (said_in (words_of line.now)) self.old.keeper.disks.items
            self.new.keeper.disks.items }
        ensures usable { AreUsable self.old.keeper.disks.items → AreUsable self.new.keeper.disks.items }
        ensures full { TellsRoom result self.old.keeper.full self.new.keeper.full }
        ensures steps { self.new.keeper.replayer.steps ≤ number }
    {
        if self.spent {
            return if self.keeper.full {
                LineEnd::Full
            } else {
                LineEnd::NoMemory
            };
        }
        match parse_journal_line(alloc, line) {
            Ok(Some(line)) => self.reply_to_line(alloc, number, line, waiting),
            Ok(None) => LineEnd::GoesOn,
            Err(AllocOr::Fault(fault)) => reply_to_fault(alloc, number, fault, waiting),
            Err(AllocOr::OutOfMemory) => LineEnd::NoMemory,
        }
    }

    fn reply_to_line(
        &mut self,
        alloc: Global,
        number: u32,
        line: JournalLine,
        waiting: &mut Waiting,
    ) -> LineEnd
        requires ready { self.old.spent ≡ false }
        requires few { self.old.keeper.replayer.steps < MOST_LINES }
        requires numbers { HasNumbers line }
        ensures reply { (s : JournaledCell) → StandsJournals self.old s
            → Ends result (response_to number s (Ok (Some line))) waiting.old waiting.new
            (StandsJournals self.new) }
        ensures disks { (s : JournaledCell) → StandsJournals self.old s
            → LeavesDisks result s (Ok (Some line)) self.new }
        ensures calls { (s : JournaledCell) → StandsJournals self.old s
            → EndCalls result s (Ok (Some line)) self.old.keeper.disks.items
            self.new.keeper.disks.items }
        ensures usable { AreUsable self.old.keeper.disks.items → AreUsable self.new.keeper.disks.items }
        ensures full { TellsRoom result self.old.keeper.full self.new.keeper.full }
        ensures steps { self.new.keeper.replayer.steps ≤ self.old.keeper.replayer.steps + 1 }
    {
        match self.answer(alloc, number, line, waiting) {
            Ok(()) => LineEnd::GoesOn,
            Err(Unkept::Full) => LineEnd::Full,
            Err(Unkept::OutOfMemory) => LineEnd::NoMemory,
        }
    }

    // The reply to a line waits after the others.
    fn answer(
        &mut self,
        alloc: Global,
        number: u32,
        line: JournalLine,
        waiting: &mut Waiting,
    ) -> Result<(), Unkept>
        requires ready { self.old.spent ≡ false }
        requires few { self.old.keeper.replayer.steps < MOST_LINES }
        requires numbers { HasNumbers line }
        ensures ok { (s : JournaledCell) → StandsJournals self.old s
            → OnOk result ((waiting.new ≡ waiting.old ++ reply_text number s line)
            × StandsJournals self.new (state_after s line)
            × (lacks_room s.lists (puts_in s line) ≡ false)) }
        ensures given_up { (s : JournaledCell) → StandsJournals self.old s
            → IfErr result (λ e. GivesUp e self.new.keeper.disks.items s.lists (puts_in s line)) }
        ensures calls { (s : JournaledCell) → StandsJournals self.old s
            → OnOk result (LineCalls s line self.old.keeper.disks.items
            self.new.keeper.disks.items) }
        ensures usable { AreUsable self.old.keeper.disks.items → AreUsable self.new.keeper.disks.items }
        ensures full { Tells result self.old.keeper.full self.new.keeper.full }
        ensures err { OnErr result (waiting.new ≡ waiting.old) }
        ensures steps { self.new.keeper.replayer.steps ≤ self.old.keeper.replayer.steps + 1 }
    {
        self.spent = true;
        let answer = self.keeper.reply(alloc, line)?;
        add_text(alloc, number, answer, waiting)?;
        self.spent = false;
        Ok(())
    }
}
