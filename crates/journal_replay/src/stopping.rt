// Lines that stop a put.
ghost use Rattle.std.specs.Prelude.{◌≡◌, ◌≢◌, ◌+◌, ◌^◌, ◌<◌, ◌≤◌, ◌++◌, ◌∷◌, [], true, false, Some, Err, IfOk, IfNone, OnOk, if◌then◌else◌, is_some, option_copied};
ghost use Rattle.std.specs.Option.{option_map, option_map_or};
ghost use Rattle.std.specs.Str.{bytes_eq};
ghost use Rattle.cds_base.specs.declared.scan.TheConstants.{MOST_LINES};
ghost use Rattle.cell_model.specs.Cells as model;
ghost use Rattle.cell_model.specs.Steps.{outcome};
ghost use Rattle.cds_cell.specs.Scripted.{answer_of, step_of};
ghost use Rattle.cds_cell.specs.ModelCells.{Stands, house_of};
ghost use Rattle.house_journal.specs.JournalRecords.{images};
ghost use Rattle.house_journal.specs.declared.step.Stop.TheVariants.{Never};
ghost use Rattle.cds_cell.specs.CommandImages.{image_after};
ghost use Rattle.cell_script.specs.declared.command.Command as script;
ghost use Rattle.script_answers.specs.declared.answer.Answer as plain;
ghost use Rattle.journal_replay.specs.Journaled.{stop_refused};
ghost use Rattle.journal_forms.specs.declared.journal_line.JournalLine.TheVariants as line;
ghost use Rattle.journal_replay.specs.CellDisks.{AreKept, HoldAll};
ghost use Rattle.disk_journals.specs.KeptJournals.{HoldsEither, IsKept, StopsAndOpens, is_last, size_of, stops_after};
ghost use Rattle.disk_journals.specs.declared.faults.Unkept.TheVariants as why;
ghost use Rattle.journal_replay.specs.CellJournals.{JournaledCell, Lists, lacks_room, puts_in};
ghost use Rattle.journal_replay.specs.DiskCalls.{IsStopped, LineCalls, UsesDisk};
ghost use Rattle.journal_replay.specs.Keeping.{StandsKeeper};
ghost use Rattle.journal_replay.specs.PrivateJournals.{HasDone, KeepsDisks, Replies, StopsPut, Tells, answered_unless};

use crate::images::image_of;
use crate::keeper::{Keeper, full_after, place_of};
use crate::stops::{acts_alone, lacks_message};
use cds_cell::Mark;
use cds_cell::laws::images_stay;
use cds_stamps::HouseNo;
use cell_script::Command;
use disk_journals::{KeptHouse, Unkept, stopped_put};
use house_journal::{Leave, MemDisk};
use journal_forms::JournalAnswer;
use script_answers::{Answer, ScriptRefusal};
use std::alloc::Global;

// The answer to a command, unless its put was stopped. (This is apart, since the drop of an answer
// is long to prove.)
fn answer_unless(
    stopped: Result<Option<JournalAnswer>, Unkept>,
    answer: Answer,
) -> Result<JournalAnswer, Unkept>
    ensures { result ≡ answered_unless stopped answer }
{
    match stopped {
        Ok(Some(stopped)) => Ok(stopped),
        Ok(None) => Ok(JournalAnswer::Plain(answer)),
        Err(unkept) => Err(unkept),
    }
}

// Whether a journal gives this image.
fn gives(given: Option<&Vec<u8>>, image: &[u8]) -> bool
    ensures { result ≡ option_map_or (bytes_eq image.now)
        (option_map (λ v. v.items) (option_copied given.entry)) false }
{
    match given {
        Some(given) => image == given.as_slice(),
        None => false,
    }
}

// Lets a command go. (This is apart, since the drop of a command is long to prove.)
fn forget(_command: Command) {}

// The put of an image is stopped, and the journal opened again: whether it gives the image then.
fn stop_kept(
    alloc: Global,
    kept: &mut KeptHouse,
    disk: &mut MemDisk,
    image: Vec<u8>,
    call: u8,
    leave: Leave,
) -> Result<bool, Unkept>
    requires open { IsKept (Some kept.old) disk.old }
    requires first { 1 ≤ call }
    requires last { call ≤ 4 }
    ensures kept { OnOk result (IsKept (Some kept.new) disk.new) }
    ensures word { is_last image.items (images disk.old.octets) ≡ false
        → IfOk result (λ after. after ≡ stops_after call leave) }
    ensures images { OnOk result (images disk.new.octets ≡ (if stops_after call leave
        then images disk.old.octets ++ image.items ∷ [] else images disk.old.octets)) }
    ensures crash { HoldsEither disk.new (images disk.old.octets)
        (images disk.old.octets ++ image.items ∷ []) }
    ensures room { OnOk result (size_of (images disk.old.octets ++ image.items ∷ []) ≤ 2 ^ 40) }
    ensures full { result ≡ Err why.Full
        → 2 ^ 40 < size_of (images disk.old.octets ++ image.items ∷ []) }
    ensures lacking { 2 ^ 40 < size_of (images disk.old.octets ++ image.items ∷ [])
        → result ≡ Err why.Full }
    ensures stops { OnOk result
        (StopsAndOpens kept.old.journal.place image.items call leave disk.old disk.new) }
    ensures never { disk.new.stop ≡ Never }
{
    let (journal, given) = stopped_put(alloc, &mut kept.journal, disk, &image, call, leave)?;
    kept.journal = journal;
    if !gives(given.as_ref(), &image) {
        return Ok(false);
    }
    kept.image = image;
    Ok(true)
}

impl Keeper {
    /// A command is stopped in the put of a house, unless that is refused, or leaves the image of
    /// the house as it is.
    pub(crate) fn stop(
        &mut self,
        alloc: Global,
        house: HouseNo,
        call: u8,
        leave: Leave,
        command: Command,
    ) -> Result<JournalAnswer, Unkept>
        requires few { self.old.replayer.steps < MOST_LINES }
        requires house { 1 ≤ house.0 }
        requires first { 1 ≤ call }
        requires last { call ≤ 4 }
        requires kept { AreKept self.old.houses.items self.old.disks.items }
        ensures reply { (s : JournaledCell) → StandsKeeper self.old s
            → Replies result self.new s (line.Stop house call leave command) }
        ensures calls { (s : JournaledCell) → StandsKeeper self.old s
            → OnOk result (LineCalls s (line.Stop house call leave command) self.old.disks.items
            self.new.disks.items) }
        ensures stay { KeepsDisks result self.old self.new }
        ensures full { Tells result self.old.full self.new.full }
        ensures steps { self.new.replayer.steps ≤ self.old.replayer.steps + 1 }
    {
        if let Some(refused) = self.stop_refusal(house, &command) {
            forget(command);
            return Ok(refused);
        }
        let Ok(mark) = self.replayer.cell().mark(alloc, house, &command) else {
            forget(command);
            return Err(Unkept::OutOfMemory);
        };
        let answer = self.replayer.step(alloc, command)?;
        let stopped = self.stop_changed(alloc, house, call, leave, mark);
        answer_unless(stopped, answer)
    }

    // Why a command is not to be stopped at a house.
    fn stop_refusal(&self, house: HouseNo, command: &Command) -> Option<JournalAnswer>
        ensures made { IfNone result
            (is_some (house_of self.now.replayer.cell.houses.items house.0) ≡ true) }
        ensures refused { (g : model.Cell) → Stands self.now.replayer.cell g
            → result ≡ stop_refused g house.0 (step_of command.now) }
    {
        let cell = self.replayer.cell();
        if !cell.has_house(house) {
            return Some(JournalAnswer::Plain(Answer::Refused(ScriptRefusal::NoHouse)));
        }
        if lacks_message(cell, command) {
            return Some(JournalAnswer::Plain(Answer::Refused(ScriptRefusal::NoMessage)));
        }
        if !acts_alone(cell, house, command) {
            return Some(JournalAnswer::NotActing);
        }
        None
    }

    // The put of a house after its command is stopped, unless its image is that at the mark.
    fn stop_changed(
        &mut self,
        alloc: Global,
        house: HouseNo,
        call: u8,
        leave: Leave,
        mark: Mark,
    ) -> Result<Option<JournalAnswer>, Unkept>
        requires house { 1 ≤ house.0 }
        requires first { 1 ≤ call }
        requires last { call ≤ 4 }
        requires kept { AreKept self.old.houses.items self.old.disks.items }
        ensures reply { (s : JournaledCell) (c : script.Command) (a : plain.Answer)
            → HasDone self.old s house.0 (step_of c) mark
            → answer_of (outcome s.cell (step_of c)).answer ≡ Some a
            → Replies (answered_unless result a) self.new s (line.Stop house call leave c) }
        ensures calls { (s : JournaledCell) (c : script.Command)
            → HasDone self.old s house.0 (step_of c) mark
            → OnOk result (LineCalls s (line.Stop house call leave c) self.old.disks.items
            self.new.disks.items) }
        ensures stay { KeepsDisks result self.old self.new }
        ensures full { Tells result self.old.full self.new.full }
        ensures steps { self.new.replayer.steps ≡ self.old.replayer.steps }
    {
        images_stay();
        let Some(image) = image_of(alloc, self.replayer.cell(), house)? else {
            return Ok(None);
        };
        if image.as_slice() == mark.image() {
            return Ok(None);
        }
        let stopped = self.stop_put(alloc, house, call, leave, mark, image)?;
        Ok(Some(stopped))
    }

    // The put of another image of a house than that at the mark is stopped. Then the house crashes
    // after the command, or the command is taken back.
    fn stop_put(
        &mut self,
        alloc: Global,
        house: HouseNo,
        call: u8,
        leave: Leave,
        mark: Mark,
        image: Vec<u8>,
    ) -> Result<JournalAnswer, Unkept>
        requires house { 1 ≤ house.0 }
        requires first { 1 ≤ call }
        requires last { call ≤ 4 }
        requires kept { AreKept self.old.houses.items self.old.disks.items }
        ensures reply { (s : JournaledCell) (c : script.Command)
            → HasDone self.old s house.0 (step_of c) mark
            → image_after s.cell house.0 (step_of c) ≡ Some image.items
            → Replies result self.new s (line.Stop house call leave c) }
        ensures lacking { (s : JournaledCell) (c : script.Command)
            → HasDone self.old s house.0 (step_of c) mark
            → image_after s.cell house.0 (step_of c) ≡ Some image.items
            → lacks_room s.lists (puts_in s (line.Stop house call leave c)) ≡ true
            → result ≡ Err why.Full }
        ensures calls { (s : JournaledCell) (c : script.Command)
            → HasDone self.old s house.0 (step_of c) mark
            → image_after s.cell house.0 (step_of c) ≡ Some image.items
            → OnOk result (UsesDisk (IsStopped image.items call leave) house.0
            self.old.disks.items self.new.disks.items) }
        ensures stay { KeepsDisks result self.old self.new }
        ensures full { Tells result self.old.full self.new.full }
        ensures steps { self.new.replayer.steps ≡ self.old.replayer.steps }
    {
        images_stay();
        let posted = mark.posted();
        let after = self.put_stopped(alloc, house, call, leave, image)?;
        if after {
            self.replayer.crash_after(alloc, house, posted)?;
            Ok(JournalAnswer::StoppedAfter)
        } else {
            self.replayer.take_back(house, mark);
            Ok(JournalAnswer::StoppedBefore)
        }
    }

    // The put of another image than the last of a house is stopped, and the journal opened again:
    // whether it gives the image then.
    fn put_stopped(
        &mut self,
        alloc: Global,
        house: HouseNo,
        call: u8,
        leave: Leave,
        image: Vec<u8>,
    ) -> Result<bool, Unkept>
        requires house { 1 ≤ house.0 }
        requires first { 1 ≤ call }
        requires last { call ≤ 4 }
        requires kept { AreKept self.old.houses.items self.old.disks.items }
        ensures same { self.new.replayer ≡ self.old.replayer }
        ensures puts { (lists : Lists) → HoldAll self.old.disks.items lists
            → is_last image.items (lists house.0) ≡ false → lists house.0 ≢ []
            → StopsPut result self.new.disks.items lists (stops_after call leave)
            (record { house = house.0; image = image.items }) }
        ensures lacking { (lists : Lists) → HoldAll self.old.disks.items lists
            → is_last image.items (lists house.0) ≡ false → lists house.0 ≢ []
            → lacks_room lists (record { house = house.0; image = image.items } ∷ []) ≡ true
            → result ≡ Err why.Full }
        ensures calls { (lists : Lists) → HoldAll self.old.disks.items lists
            → lists house.0 ≢ []
            → OnOk result (UsesDisk (IsStopped image.items call leave) house.0
            self.old.disks.items self.new.disks.items) }
        ensures stay { KeepsDisks result self.old self.new }
        ensures full { Tells result self.old.full self.new.full }
    {
        let Some(at) = place_of(house) else {
            return Ok(false);
        };
        match &mut self.houses[at] {
            Some(kept) => {
                let stopped = stop_kept(alloc, kept, &mut self.disks[at], image, call, leave);
                self.full = full_after(&stopped, self.full);
                stopped
            }
            None => Ok(false),
        }
    }
}
