//! What a replica has that is later than its AllUpTo, and the merge of that into another replica.
//! Of messages and of octets it knows nothing.
ghost use Rattle.std.specs.Prelude.{◌≡◌, ◌++◌, ℕ, List, IfOk, OnOk, OnErr};
ghost use Rattle.directory.specs.Entries.{IsValidTable};
ghost use Rattle.directory.specs.Histories.{Mark, CanMerge};
ghost use Rattle.purge_rule.specs.Latest.{DeltaUpTo, ReplicaUpTo, latest_in_delta};
ghost use Rattle.purge_rule.specs.Replicas.{replica_of, delta_in, delta_of, together, merged_table};

use crate::latest::{latest_in, time_of};
use crate::merging::merge_excerpt;
use crate::replica::Replica;
use cds_stamps::{Lattice, Stamp, later_of};
use directory::Excerpt;
use std::alloc::{AllocError, Global};

/// What a house sends of a replica in a skulk: what of its table is later than a stamp, if there is
/// one, else the whole table.
pub struct Delta {
    pub table: Excerpt,
    pub above: Option<Stamp>,
}

impl Drop for Delta {
    fn drop(self) {
        let Delta {
            table: _table,
            above: _above,
        } = self;
    }
}

impl Delta {
    /// A delta of the same table and stamp.
    pub fn copy(&self, alloc: Global) -> Result<Delta, AllocError>
        ensures { IfOk result (λ d. d ≡ self.now) }
    {
        Ok(Delta {
            table: self.table.copy(alloc)?,
            above: self.above,
        })
    }

    /// The greatest time in it: of its table, and of the stamp.
    pub fn latest_time(&self) -> u64
        ensures { result ≡ latest_in_delta self.now }
    {
        latest_in(self.table.iter()).max(time_of(self.above))
    }
}

impl Replica {
    /// What it has that is later than its AllUpTo.
    pub fn delta(&self, alloc: Global) -> Result<Delta, AllocError>
        ensures { IfOk result (λ d. d ≡ delta_in self.now) }
    {
        let table = match self.all_up_to {
            Some(t) => self.table.later_than(alloc, t)?,
            None => self.table.excerpt()?,
        };
        Ok(Delta {
            table,
            above: self.all_up_to,
        })
    }

    /// Merges the delta of another replica in, as `take` merges the replica: of two histories that
    /// can be merged it becomes the replica of both together.
    pub fn take_delta(&mut self, alloc: Global, other: &Delta) -> Result<(), AllocError>
        ensures merged { OnOk result ((h g : List Mark) →
            let t = together self.old.all_up_to other.now.above in CanMerge h g t →
            self.old ≡ replica_of h self.old.all_up_to → other.now ≡ delta_of g other.now.above →
            self.new ≡ replica_of (h ++ g) t) }
        ensures joined { OnOk result (let t = together self.old.all_up_to other.now.above in
            IsValidTable self.old.table → IsValidTable other.now.table →
            self.new.table ≡ merged_table t self.old.table other.now.table) }
        ensures all_up_to { OnOk result (
            self.new.all_up_to ≡ together self.old.all_up_to other.now.above) }
        ensures valid { OnOk result (
            IsValidTable self.old.table → IsValidTable other.now.table
            → IsValidTable self.new.table) }
        ensures times { OnOk result ((n : ℕ) →
            IsValidTable self.old.table → IsValidTable other.now.table →
            ReplicaUpTo n self.old → DeltaUpTo n other.now → ReplicaUpTo n self.new) }
        ensures err { OnErr result (self.new ≡ self.old) }
    {
        let up_to = &later_of(self.all_up_to, other.above);
        merge_excerpt(&mut self.table, alloc, &other.table, *up_to)?;
        self.all_up_to = *up_to;
        Ok(())
    }
}
