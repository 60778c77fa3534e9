// A cell whose houses put their images into journals, and what it replies to a line.
ghost use Rattle.std.specs.Prelude.{ℕ, ◌≡◌, ◌≢◌, ◌++◌, ◌+◌, ◌<◌, ◌≤◌, [], true, false, None, Some, Err, IfOk, IfSome, IfNone, OnOk, OnErr, replicate};
ghost use Rattle.std.specs.Option.{option_map};
ghost use Rattle.cds_base.specs.declared.scan.TheConstants.{MOST_LINES};
ghost use Rattle.cell_model.specs.Cells as model;
ghost use Rattle.cell_model.specs.Sets.{has};
ghost use Rattle.cds_cell.specs.CommandImages.{octets_at, one_or_none};
ghost use Rattle.cds_cell.specs.ModelCells.{Stands};
ghost use Rattle.script_answers.specs.declared.answer.Answer.TheVariants as answer;
ghost use Rattle.cell_script.specs.declared.command.ScriptLine.TheVariants as script;
ghost use Rattle.cell_script.specs.declared.command.Command.TheVariants as command;
ghost use Rattle.journal_forms.specs.JournalLines.{HasNumbers};
ghost use Rattle.journal_forms.specs.declared.journal_line.JournalLine.TheVariants as line;
ghost use Rattle.script_replay.specs.Replies.{asked_of, question_said, said_of};
ghost use Rattle.journal_replay.specs.CellDisks.{AreKept, AreNew, AreUsable, HoldAll, disk_count};
ghost use Rattle.journal_replay.specs.CellJournals.{JournaledCell, Lists, empty_state, lacks_room, puts_of};
ghost use Rattle.journal_replay.specs.DiskCalls.{LineCalls, OpensJournal, PlainCalls};
ghost use Rattle.journal_replay.specs.Keeping.{StandsKeeper};
ghost use Rattle.journal_replay.specs.PrivateJournals.{Does, IsGiven, KeepsDisks, PutsAll, Replies, Tells, is_refusal};
ghost use Rattle.disk_journals.specs.declared.faults.Unkept.TheVariants as why;

use crate::images::image_of;
use cds_cell::laws::images_stay;
use cds_stamps::HouseNo;
use cell_script::{Command, Octets, Question, ScriptLine};
use disk_journals::{KeptHouse, Unkept, keep, open};
use house_journal::MemDisk;
use journal_forms::{JournalAnswer, JournalLine};
use script_answers::{Answer, ScriptRefusal};
use script_replay::{Replayer, Reply, reply_to_question};
use std::alloc::{AllocError, Global};
use std::mem;

// How many disks there are: one of each house.
const DISKS: usize = 255;

/// A cell, the journals of its houses, and their disks: that of house H at place H - 1.
#[derive(Drop)]
pub(crate) struct Keeper {
    pub(crate) replayer: Replayer,
    pub(crate) houses: Vec<Option<KeptHouse>>,
    pub(crate) disks: Vec<MemDisk>,
    // Whether a journal had no room for an image.
    pub(crate) full: bool,
}

/// The place of a house's disk; none of a number that no house has.
pub(crate) fn place_of(house: HouseNo) -> Option<usize>
    ensures some { IfSome result (λ at. (house.0 ≡ at + 1) × (at < DISKS)) }
    ensures none { IfNone result (house.0 ≡ 0) }
{
    usize::from(house.0).checked_sub(1)
}

/// Whether a journal had no room, after a put.
pub(crate) fn full_after<A>(put: &Result<A, Unkept>, before: bool) -> bool
    ensures { Tells put.now before result }
{
    match put {
        Err(Unkept::Full) => true,
        Err(Unkept::OutOfMemory) | Ok(_) => before,
    }
}

// Whether an answer is a refusal, which leaves all images as they are.
fn is_refusal(answer: &Answer) -> bool
    ensures { result ≡ is_refusal answer.now }
{
    matches!(answer, Answer::Refused(_))
}

// The octets that a journal gives, as an answer.
fn image_answer(given: Option<Vec<u8>>) -> Answer
    ensures { (g : model.Cell) (h : ℕ) → IsGiven (option_map (λ v. v.items) given) g h → 1 ≤ h
        → result ≡ asked_of g h (answer.Octets (octets_at g h)) }
{
    match given {
        Some(image) => Answer::Octets(Octets::of(image)),
        None => Answer::Refused(ScriptRefusal::NoHouse),
    }
}

// A house has a disk. (A law: it does nothing.)
fn has_disk(house: Option<HouseNo>)
    ensures { IfSome house (λ h. h.0 ≤ disk_count) }
{}

// No house has a journal.
fn no_houses(alloc: Global) -> Result<Vec<Option<KeptHouse>>, AllocError>
    ensures { IfOk result (λ v. v.items ≡ replicate DISKS None) }
{
    let mut houses = Vec::with_capacity(alloc, DISKS)?;
    for _ in 0..DISKS {
        houses.push(None)?;
    }
    Ok(houses)
}

impl Keeper {
    /// Over a cell without houses, and these new disks, which it takes. After `OutOfMemory` they
    /// are where they were.
    pub(crate) fn new(alloc: Global, disks: &mut Vec<MemDisk>) -> Result<Keeper, AllocError>
        requires { AreNew disks.old.items }
        ensures kept { IfOk result (λ k. AreKept k.houses.items k.disks.items) }
        ensures stands { IfOk result (λ k. StandsKeeper k empty_state) }
        ensures steps { IfOk result (λ k. k.replayer.steps ≡ 0) }
        ensures usable { IfOk result (λ k. AreUsable k.disks.items) }
        ensures full { IfOk result (λ k. k.full ≡ false) }
        ensures taken { OnOk result (disks.new.items ≡ []) }
        ensures err { OnErr result (disks.new.items ≡ disks.old.items) }
    {
        let houses = no_houses(alloc)?;
        Ok(Keeper {
            replayer: Replayer::new(alloc),
            houses,
            disks: mem::replace(disks, Vec::new(alloc)),
            full: false,
        })
    }

    /// The disks.
    pub(crate) fn into_disks(self) -> Vec<MemDisk>
        ensures { result.items ≡ self.disks.items }
    {
        self.disks
    }

    /// What is replied to a line, after the puts of the houses that it changed.
    pub(crate) fn reply(
        &mut self,
        alloc: Global,
        line: JournalLine,
    ) -> Result<JournalAnswer, Unkept>
        requires few { self.old.replayer.steps < MOST_LINES }
        requires numbers { HasNumbers line }
        requires kept { AreKept self.old.houses.items self.old.disks.items }
        ensures reply { (s : JournaledCell) → StandsKeeper self.old s
            → Replies result self.new s line }
        ensures calls { (s : JournaledCell) → StandsKeeper self.old s
            → OnOk result (LineCalls s line self.old.disks.items self.new.disks.items) }
        ensures stay { KeepsDisks result self.old self.new }
        ensures full { Tells result self.old.full self.new.full }
        ensures steps { self.new.replayer.steps ≤ self.old.replayer.steps + 1 }
    {
        match line {
            JournalLine::Plain(line) => Ok(JournalAnswer::Plain(self.reply_plain(alloc, line)?)),
            JournalLine::Image(house) => {
                let image = self.reopened(alloc, house)?;
                Ok(JournalAnswer::Plain(image_answer(image)))
            }
            JournalLine::Stop {
                house,
                call,
                leave,
                command,
            } => self.stop(alloc, house, call, leave, command),
        }
    }

    // What is replied to a line of `run`.
    fn reply_plain(&mut self, alloc: Global, line: ScriptLine) -> Result<Answer, Unkept>
        requires few { self.old.replayer.steps < MOST_LINES }
        requires kept { AreKept self.old.houses.items self.old.disks.items }
        ensures does { (s : JournaledCell) → StandsKeeper self.old s
            → Does result self.new s (said_of s.cell line) }
        ensures calls { (s : JournaledCell) → StandsKeeper self.old s
            → OnOk result (PlainCalls s line self.old.disks.items self.new.disks.items) }
        ensures stay { KeepsDisks result self.old self.new }
        ensures full { Tells result self.old.full self.new.full }
        ensures steps { self.new.replayer.steps ≤ self.old.replayer.steps + 1 }
    {
        match line {
            ScriptLine::Cell(Command::Start(house)) => self.start(alloc, house),
            ScriptLine::Cell(command) => self.step(alloc, command),
            ScriptLine::Question(question) => self.ask(alloc, &question),
        }
    }

    /// A step of the cell.
    pub(crate) fn step(&mut self, alloc: Global, command: Command) -> Result<Answer, Unkept>
        requires few { self.old.replayer.steps < MOST_LINES }
        requires kept { AreKept self.old.houses.items self.old.disks.items }
        ensures does { (s : JournaledCell) → StandsKeeper self.old s
            → Does result self.new s (said_of s.cell (script.Cell command)) }
        ensures stay { KeepsDisks result self.old self.new }
        ensures full { Tells result self.old.full self.new.full }
        ensures steps { self.new.replayer.steps ≤ self.old.replayer.steps + 1 }
    {
        images_stay();
        let (first, second) = self.replayer.cell().actors(&command);
        let answer = self.replayer.step(alloc, command)?;
        if is_refusal(&answer) {
            has_disk(first);
            has_disk(second);
            return Ok(answer);
        }
        self.keep_both(alloc, first, second)?;
        Ok(answer)
    }

    // The answer to a question, after the updates that it asks for.
    fn ask(&mut self, alloc: Global, question: &Question) -> Result<Answer, Unkept>
        requires few { self.old.replayer.steps < MOST_LINES }
        requires kept { AreKept self.old.houses.items self.old.disks.items }
        ensures does { (s : JournaledCell) → StandsKeeper self.old s
            → Does result self.new s (question_said s.cell question.now) }
        ensures stay { KeepsDisks result self.old self.new }
        ensures full { Tells result self.old.full self.new.full }
        ensures steps { self.new.replayer.steps ≤ self.old.replayer.steps + 1 }
    {
        images_stay();
        match reply_to_question(alloc, self.replayer.cell(), question)? {
            Reply::Answer(answer) => Ok(answer),
            Reply::Updates(updates) => {
                let answer = self.replayer.accept(alloc, &updates)?;
                self.keep_both(alloc, Some(updates.house), None)?;
                Ok(answer)
            }
        }
    }

    // Two houses, or fewer, put their images, one after the other.
    fn keep_both(
        &mut self,
        alloc: Global,
        first: Option<HouseNo>,
        second: Option<HouseNo>,
    ) -> Result<(), Unkept>
        requires kept { AreKept self.old.houses.items self.old.disks.items }
        ensures puts { (g : model.Cell) (lists : Lists) → Stands self.old.replayer.cell g
            → HoldAll self.old.disks.items lists
            → PutsAll result self.new.disks.items lists
            (puts_of g (one_or_none first ++ one_or_none second) lists) }
        ensures same { self.new.replayer ≡ self.old.replayer }
        ensures stay { KeepsDisks result self.old self.new }
        ensures full { Tells result self.old.full self.new.full }
    {
        self.keep_one(alloc, first)?;
        self.keep_one(alloc, second)
    }

    // A house puts its image, if that is another than the last in its journal.
    fn keep_one(&mut self, alloc: Global, house: Option<HouseNo>) -> Result<(), Unkept>
        requires kept { AreKept self.old.houses.items self.old.disks.items }
        ensures puts { (g : model.Cell) (lists : Lists) → Stands self.old.replayer.cell g
            → HoldAll self.old.disks.items lists
            → PutsAll result self.new.disks.items lists (puts_of g (one_or_none house) lists) }
        ensures same { self.new.replayer ≡ self.old.replayer }
        ensures stay { KeepsDisks result self.old self.new }
        ensures full { Tells result self.old.full self.new.full }
    {
        let Some(house) = house else {
            return Ok(());
        };
        let Some(at) = place_of(house) else {
            return Ok(());
        };
        let Some(image) = image_of(alloc, self.replayer.cell(), house)? else {
            return Ok(());
        };
        self.keep_image(alloc, house, at, image)
    }

    // The image of the house of a disk is put, if it is another than the last in its journal.
    fn keep_image(
        &mut self,
        alloc: Global,
        house: HouseNo,
        at: usize,
        image: Vec<u8>,
    ) -> Result<(), Unkept>
        requires house { house.0 ≡ at + 1 }
        requires place { at < DISKS }
        requires kept { AreKept self.old.houses.items self.old.disks.items }
        ensures same { self.new.replayer ≡ self.old.replayer }
        ensures stay { KeepsDisks result self.old self.new }
        ensures full { Tells result self.old.full self.new.full }
        ensures puts { (g : model.Cell) (lists : Lists) → octets_at g house.0 ≡ image.items
            → has house.0 g.made ≡ true → HoldAll self.old.disks.items lists
            → PutsAll result self.new.disks.items lists (puts_of g (one_or_none (Some house)) lists) }
        ensures lacking { (g : model.Cell) (lists : Lists) → octets_at g house.0 ≡ image.items
            → has house.0 g.made ≡ true → HoldAll self.old.disks.items lists
            → lacks_room lists (puts_of g (one_or_none (Some house)) lists) ≡ true
            → result ≡ Err why.Full }
    {
        let put = keep(alloc, &mut self.houses[at], &mut self.disks[at], image);
        self.full = full_after(&put, self.full);
        put
    }

    // What the journal of a house gives, which is opened for that; nothing of a house without one.
    fn reopened(&mut self, alloc: Global, house: HouseNo) -> Result<Option<Vec<u8>>, Unkept>
        requires kept { AreKept self.old.houses.items self.old.disks.items }
        ensures same { self.new.replayer ≡ self.old.replayer }
        ensures given { (s : JournaledCell) → StandsKeeper self.old s
            → IfOk result (λ o. IsGiven (option_map (λ v. v.items) o) s.cell house.0) }
        ensures calls { (s : JournaledCell) → StandsKeeper self.old s
            → OnOk result (OpensJournal s house.0 self.old.disks.items self.new.disks.items) }
        ensures disks { (lists : Lists) → HoldAll self.old.disks.items lists
            → HoldAll self.new.disks.items lists }
        ensures stay { KeepsDisks result self.old self.new }
        ensures full { Tells result self.old.full self.new.full }
        ensures memory { result ≢ Err why.Full }
    {
        let Some(at) = place_of(house) else {
            return Ok(None);
        };
        match &mut self.houses[at] {
            Some(kept) => {
                let (journal, image) = open(alloc, &mut self.disks[at])?;
                kept.journal = journal;
                Ok(image)
            }
            None => Ok(None),
        }
    }

    // A house starts from what its journal gives.
    fn start(&mut self, alloc: Global, house: HouseNo) -> Result<Answer, Unkept>
        requires few { self.old.replayer.steps < MOST_LINES }
        requires kept { AreKept self.old.houses.items self.old.disks.items }
        ensures does { (s : JournaledCell) → StandsKeeper self.old s
            → Does result self.new s (said_of s.cell (script.Cell (command.Start house))) }
        ensures calls { (s : JournaledCell) → StandsKeeper self.old s
            → OnOk result (OpensJournal s house.0 self.old.disks.items self.new.disks.items) }
        ensures stay { KeepsDisks result self.old self.new }
        ensures full { Tells result self.old.full self.new.full }
        ensures steps { self.new.replayer.steps ≤ self.old.replayer.steps + 1 }
    {
        images_stay();
        match self.reopened(alloc, house)? {
            Some(image) => Ok(self.replayer.start_from(alloc, house, &image)?),
            None => Ok(self.replayer.step(alloc, Command::Start(house))?),
        }
    }
}
