// The cell, and what it is asked.
ghost use Rattle.std.specs.Prelude.{◌≡◌, ◌+◌, ◌<◌, ◌≤◌, ◌^◌, ℕ, None, true, IfOk, OnOk, MatchOption, is_err, is_some, length, option_copied};
ghost use Rattle.std.specs.Option.{option_and_then, option_map};
ghost use Rattle.std.specs.Rc.{rc_slice_items};
ghost use Rattle.directory.specs.EntryChanges.{changes};
ghost use Rattle.cell_model.specs.Cells as model;
ghost use Rattle.cell_model.specs.Sets.{has};
ghost use Rattle.cell_model.specs.Steps.{message_at, outcome};
ghost use Rattle.cds_cell.specs.Accepting.{IsAccepting, accept_in_turn};
ghost use Rattle.cds_cell.specs.Bags.{letter_at};
ghost use Rattle.cds_cell.specs.CellHouses.{is_up_state};
ghost use Rattle.cds_cell.specs.PrivateSteps.{IsPlaceOf, Leaves};
ghost use Rattle.cds_cell.specs.Recorded.{octets_of};
ghost use Rattle.cds_cell.specs.Scripted.{step_of};
ghost use Rattle.cds_cell.specs.ModelCells.{GrowsBy, GrowsByUpdates, HasRoom, IsCall, IsGreatestEpoch, IsStep, IsWithin, Stands, UnlessDone};
ghost use Rattle.cds_cell.specs.ModelCells.{directory_count, directory_of, greatest_epoch, house_of};

use crate::bag::Bag;
use crate::console::Listing;
use crate::house::{CellHouse, HouseState};
use crate::updating::AcceptedAll;
use cds_stamps::{DirId, HouseNo};
use cell_script::Command;
use directory::Update;
use script_answers::Answer;
use std::alloc::{AllocError, Global};

/// A cell: its houses in the order in which they were made, what its console knows of the
/// directories 1, 2, 3 and so on, and the messages that were posted.
#[derive(Drop)]
pub struct Cell {
    pub(crate) houses: Vec<CellHouse>,
    pub(crate) directories: Vec<Listing>,
    pub(crate) bag: Bag,
    pub(crate) spent: bool,
}

impl Cell {
    /// A cell without houses, directories and messages. Takes no memory.
    pub fn new(alloc: Global) -> Cell
        ensures stands { Stands result model.empty_cell }
        ensures within { IsWithin 0 result }
    {
        Cell {
            houses: Vec::new(alloc),
            directories: Vec::new(alloc),
            bag: Bag::new(alloc),
            spent: false,
        }
    }

    /// How many messages were posted.
    pub fn posted(&self) -> u64
        ensures count { result ≡ self.now.bag.posted }
        ensures model { (g : model.Cell) → Stands self.now g → result ≡ length g.bag }
    {
        self.bag.posted()
    }

    /// How many directories there are.
    pub fn directories(&self) -> u64
        ensures count { result ≡ length self.now.directories.items }
        ensures model { (g : model.Cell) → Stands self.now g → result ≡ directory_count g }
    {
        self.directories.len() as u64
    }

    /// The greatest epoch number that the console gave; 0 where there is no directory.
    pub fn epochs(&self) -> u64
        ensures count { result ≡ greatest_epoch self.now.directories.items }
        ensures model { (g : model.Cell) → Stands self.now g → IsGreatestEpoch g result }
    {
        let mut greatest = 0;
        for listing in &self.directories {
            greatest = greatest.max(listing.epoch.0);
        }
        greatest
    }

    /// What there is of a house, if it was made.
    pub fn house(&self, house: HouseNo) -> Option<&HouseState>
        ensures { option_copied result
            ≡ option_map (λ h. h.state) (house_of self.now.houses.items house.0) }
    {
        let at = self.position(house)?;
        Some(&self.houses[at].state)
    }

    /// The octets of the message of a serial number, if it was posted and not lost.
    pub fn message(&self, serial: u64) -> Option<&[u8]>
        ensures found { option_map (λ octets. octets.now) result
            ≡ option_map (λ l. rc_slice_items l.shared) (letter_at self.now.bag serial) }
        ensures model { (g : model.Cell) → Stands self.now g
            → option_map (λ octets. octets.now) result
            ≡ option_and_then octets_of (message_at g serial) }
    {
        Some(self.bag.letter(serial)?.octets())
    }

    /// The house that the message of a serial number is for, if it was posted and not lost. Takes
    /// no memory.
    pub fn receiver(&self, serial: u64) -> Option<HouseNo>
        ensures found { result ≡ option_map (λ l. l.to) (letter_at self.now.bag serial) }
        ensures model { (g : model.Cell) → Stands self.now g
            → option_map (λ h. h.0) result ≡ option_map (λ m. m.receiver) (message_at g serial) }
    {
        Some(self.bag.letter(serial)?.to)
    }

    /// Whether memory ran out in a step: then the cell is used no more.
    pub fn is_spent(&self) -> bool
        ensures { result ≡ self.now.spent }
    {
        self.spent
    }

    /// Whether the house was made.
    pub fn has_house(&self, house: HouseNo) -> bool
        ensures found { result ≡ is_some (house_of self.now.houses.items house.0) }
        ensures model { (g : model.Cell) → Stands self.now g → result ≡ has house.0 g.made }
    {
        self.position(house).is_some()
    }

    /// What a command does to the cell, and what it answers. After it ran out of memory the cell is
    /// spent: each further step answers out of memory.
    pub fn step(&mut self, alloc: Global, command: Command) -> Result<Answer, AllocError>
        requires room { HasRoom self.old }
        ensures call { IsCall self.old self.new result }
        ensures grows { OnOk result (GrowsBy self.old self.new) }
        ensures same { IfOk result (λ a. UnlessDone a (self.new ≡ self.old)) }
        ensures step { (g : model.Cell) → Stands self.old g
            → IfOk result (λ a. IsStep a self.new (outcome g (step_of command))) }
    {
        self.usable()?;
        let done = self.take(alloc, command);
        self.spent = done.is_err();
        done
    }

    /// Updates of a directory at a house that is up, in order up to the first that is refused. A
    /// house that holds no such directory refuses the first. After it ran out of memory the cell is
    /// spent, as after a step.
    pub fn accept_all(
        &mut self,
        alloc: Global,
        house: HouseNo,
        dir: DirId,
        updates: &[Update],
    ) -> Result<AcceptedAll, AllocError>
        requires room { HasRoom self.old }
        requires few { length updates.now ≤ 2 ^ 32 }
        requires up { is_up_state
            (option_map (λ h. h.state) (house_of self.old.houses.items house.0)) ≡ true }
        ensures call { IsCall self.old self.new result }
        ensures grows { OnOk result (GrowsByUpdates (length updates.now) self.old self.new) }
        ensures same { IfOk result (λ a. a.count ≡ 0 → self.new ≡ self.old) }
        ensures all { (g : model.Cell) → Stands self.old g
            → IfOk result
            (λ a. IsAccepting a self.new (accept_in_turn g house.0 dir.0 (changes updates.now))) }
    {
        self.usable()?;
        let Some(at) = self.position(house) else {
            unreachable!()
        };
        let accepted = self.accept_each(alloc, at, dir, updates);
        self.spent = accepted.is_err();
        accepted
    }

    // Nothing, unless the cell is spent.
    pub(crate) fn usable(&self) -> Result<(), AllocError>
        ensures { is_err result ≡ self.now.spent }
    {
        if self.spent {
            return Err(AllocError);
        }
        Ok(())
    }

    // Refuses a step, or does it.
    fn take(&mut self, alloc: Global, command: Command) -> Result<Answer, AllocError>
        requires room { HasRoom self.old }
        ensures spent { self.new.spent ≡ self.old.spent }
        ensures grows { OnOk result (GrowsBy self.old self.new) }
        ensures same { IfOk result (λ a. UnlessDone a (self.new ≡ self.old)) }
        ensures step { (g : model.Cell) → Stands self.old g
            → IfOk result (λ a. IsStep a self.new (outcome g (step_of command))) }
    {
        match &command {
            Command::Update(house, dir, update) => self.update(alloc, *house, *dir, update),
            Command::Deliver(serial) => self.deliver(alloc, *serial),
            Command::Lose(serial) => Ok(self.lose(*serial)),
            _ => self.take_rarer(alloc, command),
        }
    }

    // Refuses a step, or does it: any, though updates and messages, of which there are many more,
    // do not come here.
    #[inline(never)]
    fn take_rarer(&mut self, alloc: Global, command: Command) -> Result<Answer, AllocError>
        requires room { HasRoom self.old }
        ensures leaves { Leaves self.old self.new result }
        ensures step { (g : model.Cell) → Stands self.old g
            → IfOk result (λ a. IsStep a self.new (outcome g (step_of command))) }
    {
        match self.allows(&command) {
            Ok(()) => self.act(alloc, command),
            Err(refusal) => Ok(Answer::Refused(refusal)),
        }
    }

    // Where a house is in the list.
    pub(crate) fn position(&self, house: HouseNo) -> Option<usize>
        ensures { MatchOption result (house_of self.now.houses.items house.0 ≡ None)
            (IsPlaceOf self.now.houses.items house.0) }
    {
        self.houses.iter().position(|h| h.house == house)
    }

    // Where a directory is in the list.
    pub(crate) fn directory_place(&self, dir: DirId) -> Option<usize>
        ensures { MatchOption result (directory_of self.now.directories.items dir.0 ≡ None)
            (λ i. (dir.0 ≡ i + 1) × (i < length self.now.directories.items)) }
    {
        let at = (dir.0 as usize).checked_sub(1)?;
        if at < self.directories.len() {
            Some(at)
        } else {
            None
        }
    }
}
