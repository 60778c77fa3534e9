// What is kept of a cell before a command of one house, to take the cell back to it.
ghost use Rattle.std.specs.Prelude.{◌≡◌, ◌≤◌, ◌∷◌, ◌+◌, ℕ, [], None, Some, true, IfOk, MatchOption, is_some, length, slice_get};
ghost use Rattle.cell_model.specs.Cells as model;
ghost use Rattle.cell_model.specs.Commands as command;
ghost use Rattle.cell_model.specs.Steps.{outcome};
ghost use Rattle.cds_cell.specs.declared.cell.Cell as cell;
ghost use Rattle.cds_cell.specs.CommandImages.{actors, octets_at};
ghost use Rattle.cds_cell.specs.Marks.{IsMark, Replaces};
ghost use Rattle.cds_cell.specs.ModelCells.{Stands, directory_of, greatest_epoch, house_of};
ghost use Rattle.cds_cell.specs.Scripted.{step_of};

use crate::cell::Cell;
use crate::console::{Listing, list_again};
use crate::house::HouseState;
use cds_stamps::{DirId, HouseNo};
use cell_script::{Command, Octets};
use std::alloc::{AllocError, Global};

/// What a command of one house may change of a cell, as it was before: the octets of the image of
/// that house, how many messages were posted, how many directories the console listed, and its
/// listing of the one that gets an epoch, with its place.
#[derive(Drop)]
pub struct Mark {
    image: Vec<u8>,
    posted: u64,
    directories: usize,
    replaced: Option<(usize, Listing)>,
}

impl Mark {
    /// The octets of the image of the house.
    pub fn image(&self) -> &[u8]
        ensures { result.now ≡ self.now.image.items }
    {
        self.image.as_slice()
    }

    /// How many messages were posted.
    pub fn posted(&self) -> u64
        ensures { result ≡ self.now.posted }
    {
        self.posted
    }
}

impl Cell {
    /// What a command of one house may change of the cell.
    pub fn mark(&self, alloc: Global, house: HouseNo, command: &Command) -> Result<Mark, AllocError>
        requires made { is_some (house_of self.now.houses.items house.0) ≡ true }
        ensures mark { IfOk result (λ m. IsMark m self.now house.0 (step_of command.now)) }
        ensures image { (g : model.Cell) → Stands self.now g
            → IfOk result (λ m. m.image.items ≡ octets_at g house.0) }
    {
        let Some(at) = self.position(house) else {
            unreachable!()
        };
        let image = self.houses[at].state.image(alloc)?;
        let replaced = self.replaced_by(alloc, command)?;
        Ok(Mark {
            image,
            posted: self.bag.posted(),
            directories: self.directories.len(),
            replaced,
        })
    }

    // The listing of the directory that gets an epoch by a command, with its place.
    fn replaced_by(
        &self,
        alloc: Global,
        command: &Command,
    ) -> Result<Option<(usize, Listing)>, AllocError>
        ensures { IfOk result (λ o. Replaces o self.now (step_of command.now)) }
    {
        match command {
            Command::Epoch(dir, _, _) => self.listing_of(alloc, *dir),
            _ => Ok(None),
        }
    }

    // A copy of the listing of a directory, with its place.
    fn listing_of(&self, alloc: Global, dir: DirId) -> Result<Option<(usize, Listing)>, AllocError>
        ensures { IfOk result
            (λ o. MatchOption o (directory_of self.now.directories.items dir.0 ≡ None)
            (λ r. (dir.0 ≡ r.0 + 1) × (slice_get self.now.directories.items r.0 ≡ Some r.1))) }
    {
        let Some(place) = self.directory_place(dir) else {
            return Ok(None);
        };
        let listing = &self.directories[place];
        let epoch = listing.epoch;
        let members = listing.members.copy(alloc)?;
        Ok(Some((place, Listing { epoch, members })))
    }

    /// After a command of one house, the cell is as it was at the mark before it, but that house is
    /// down. The serial numbers of what the command posted are given again.
    pub fn take_back(&mut self, house: HouseNo, mark: Mark)
        ensures spent { self.new.spent ≡ self.old.spent }
        ensures messages { self.new.bag.posted ≤ self.old.bag.posted }
        ensures directories { length self.new.directories.items
            ≤ length self.old.directories.items }
        ensures epochs { greatest_epoch self.new.directories.items
            ≤ greatest_epoch self.old.directories.items }
        ensures back { (before : cell.Cell) (g : model.Cell) (k : command.Command)
            → Stands before g → IsMark mark before house.0 k → actors g k ≡ house.0 ∷ []
            → Stands self.old (outcome g k).cell
            → Stands self.new (outcome g (command.Crash house.0)).cell }
    {
        let Mark {
            image,
            posted,
            directories,
            replaced,
        } = mark;
        self.bag.take_back(posted);
        list_again(&mut self.directories, directories, replaced);
        let Some(at) = self.position(house) else {
            return;
        };
        self.houses[at].state = HouseState::Down(Octets::of(image));
    }
}
