// Several updates of a directory at a house, one after another.
ghost use Rattle.std.specs.Prelude.{◌≡◌, ◌≤◌, ◌<◌, ◌+◌, ◌*◌, ◌^◌, ℕ, true, IfOk, OnOk, length};
ghost use Rattle.directory.specs.EntryChanges.{changes};
ghost use Rattle.cell_model.specs.Cells as model;
ghost use Rattle.cds_cell.specs.Accepting.{IsAccepting, accept_in_turn};
ghost use Rattle.cds_cell.specs.PrivateActs.{KeepsRest};
ghost use Rattle.cds_cell.specs.PrivateSteps.{IsPlaceOf};
ghost use Rattle.cds_cell.specs.ModelCells.{Stands};

use crate::cell::Cell;
use cds_stamps::DirId;
use directory::{Update, UpdateRefusal};
use script_answers::Serials;
use std::alloc::{AllocError, Global};

/// Updates of a directory at a house, in order up to the first that is refused.
#[derive(Drop)]
pub struct AcceptedAll {
    /// How many were accepted.
    pub count: u64,
    /// The serial numbers of the messages that these posted.
    pub posted: Serials,
    /// Why the next one was refused, if one was.
    pub refused: Option<UpdateRefusal>,
}

impl Cell {
    /// Updates of a directory at the house of this place, one after another up to the first that is
    /// refused.
    pub(crate) fn accept_each(
        &mut self,
        alloc: Global,
        at: usize,
        dir: DirId,
        updates: &[Update],
    ) -> Result<AcceptedAll, AllocError>
        requires house { at < length self.old.houses.items }
        requires room { self.old.bag.posted + 64 * length updates.now ≤ 2 ^ 63 }
        ensures rest { KeepsRest self.old self.new }
        ensures few { OnOk result
            (self.new.bag.posted ≤ self.old.bag.posted + 64 * length updates.now) }
        ensures same { IfOk result (λ a. a.count ≡ 0 → self.new ≡ self.old) }
        ensures all { (g : model.Cell) (x : ℕ) → Stands self.old g
            → IsPlaceOf self.old.houses.items x at → (g.house x).up ≡ true
            → IfOk result
            (λ a. IsAccepting a self.new (accept_in_turn g x dir.0 (changes updates.now))) }
    {
        let mut posted = Serials::new(alloc);
        for (count, update) in updates.iter().enumerate() {
            if let Err(refusal) = self.accept_at(alloc, at, dir, update, &mut posted)? {
                return Ok(AcceptedAll {
                    count: count as u64,
                    posted,
                    refused: Some(refusal),
                });
            }
        }
        Ok(AcceptedAll {
            count: updates.len() as u64,
            posted,
            refused: None,
        })
    }
}
