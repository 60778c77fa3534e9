// A replica of a directory.
ghost use Rattle.std.specs.Prelude.{◌≡◌, ◌≢◌, ◌≤◌, ◌+◌, ◌++◌, ℕ, true, List, Option, Some, None, IfOk, OnOk, OnErr, IfSome, min, if◌then◌else◌};
ghost use Rattle.cds_stamps.specs.Octets.{is_octets};
ghost use Rattle.std.specs.FinMap as map;
ghost use Rattle.directory.specs.declared.deletions.Deletion.{Deletion};
ghost use Rattle.directory.specs.Deletions.{has_deletion, HasNone};
ghost use Rattle.directory.specs.Entries.{IsValidEntry, IsValidTable};
ghost use Rattle.directory.specs.Histories.{Mark, CanMerge};
ghost use Rattle.purge_rule.specs.Replicas.{replica_of, together, merged_table, merged_entry, DropsDeletions, IsFragmentOf, RaisesAllUpTo};
ghost use Rattle.directory.specs.Held.{held_in, most_held};
ghost use Rattle.purge_rule.specs.Latest.{EntryUpTo, ReplicaUpTo, latest_time};

use crate::held::held_in;
use crate::latest::{latest_in, time_of};
use crate::merging::{merge_entry, merge_table};
use crate::steps::{Steps, forget};
use cds_stamps::{Lattice, Stamp, later_of};
use directory::{Fragment, Table};
use std::alloc::{AllocError, Global};
use std::sync::ledger::Ledger;

/// What a house holds of a directory: its table, and the stamp up to which each member of the
/// replica set has each mark.
pub struct Replica {
    pub table: Table,
    pub all_up_to: Option<Stamp>,
}

impl Drop for Replica {
    fn drop(self) {
        let Replica {
            table: _table,
            all_up_to: _all_up_to,
        } = self;
    }
}

impl Replica {
    /// A replica of the same table and AllUpTo.
    pub fn copy(&self, alloc: Global) -> Result<Replica, AllocError>
        ensures { IfOk result (λ r. r ≡ self.now) }
    {
        Ok(Replica {
            table: self.table.copy(alloc)?,
            all_up_to: self.all_up_to,
        })
    }

    /// Merges another replica in, up to the later AllUpTo: of its table what is later than that is
    /// taken, and deletions up to it are dropped. Of two histories that can be merged it becomes
    /// the replica of both together.
    pub fn take(&mut self, alloc: Global, other: &Replica) -> Result<(), AllocError>
        ensures merged { OnOk result ((h g : List Mark) →
            let t = together self.old.all_up_to other.now.all_up_to in
            CanMerge h g t → self.old ≡ replica_of h self.old.all_up_to
            → other.now ≡ replica_of g other.now.all_up_to → self.new ≡ replica_of (h ++ g) t) }
        ensures joined { OnOk result (let t = together self.old.all_up_to other.now.all_up_to in
            IsValidTable self.old.table → IsValidTable other.now.table
            → self.new.table ≡ merged_table t self.old.table other.now.table) }
        ensures all_up_to { OnOk result
            (self.new.all_up_to ≡ together self.old.all_up_to other.now.all_up_to) }
        ensures valid { OnOk result (IsValidTable self.old.table → IsValidTable other.now.table
            → IsValidTable self.new.table) }
        ensures times { OnOk result ((n : ℕ) → IsValidTable self.old.table
            → IsValidTable other.now.table →
            ReplicaUpTo n self.old → ReplicaUpTo n other.now → ReplicaUpTo n self.new) }
        ensures err { OnErr result (self.new ≡ self.old) }
    {
        let up_to = &later_of(self.all_up_to, other.all_up_to);
        merge_table(&mut self.table, alloc, &other.table, *up_to)?;
        self.all_up_to = *up_to;
        Ok(())
    }

    /// Merges the marks of one update in: of their entry what is later than AllUpTo is taken, and
    /// every other name stays as it is. Of a history that they can be merged with it becomes the
    /// replica of both together, up to the same stamp. An entry that is not valid is left out.
    pub fn take_marks(&mut self, alloc: Global, fragment: &Fragment) -> Result<(), AllocError>
        ensures merged { OnOk result ((h marks : List Mark) →
            CanMerge h marks self.old.all_up_to → IsFragmentOf marks fragment.now →
            self.old ≡ replica_of h self.old.all_up_to
            → self.new ≡ replica_of (h ++ marks) self.old.all_up_to) }
        ensures joined { OnOk result (let f = fragment.now in
            IfSome (map.get self.old.table f.name) IsValidEntry → IsValidEntry f.entry
            → (q : List ℕ) → map.get self.new.table q ≡
            merged_entry self.old.all_up_to (map.get self.old.table q)
            (if is_octets q f.name then Some f.entry else None)) }
        ensures others { OnOk result ((q : List ℕ) → q ≢ fragment.now.name
            → map.get self.new.table q ≡ map.get self.old.table q) }
        ensures left_out { OnOk result ((IsValidEntry fragment.now.entry → ⊥)
            → self.new ≡ self.old) }
        ensures all_up_to { self.new.all_up_to ≡ self.old.all_up_to }
        ensures valid { OnOk result (IsValidTable self.old.table → IsValidEntry fragment.now.entry
            → IsValidTable self.new.table) }
        ensures times { OnOk result (let f = fragment.now in
            (n : ℕ) → IfSome (map.get self.old.table f.name) IsValidEntry → IsValidEntry f.entry →
            ReplicaUpTo n self.old → EntryUpTo n f.entry → ReplicaUpTo n self.new) }
        ensures err { OnErr result (self.new ≡ self.old) }
    {
        merge_entry(&mut self.table, alloc, fragment, self.all_up_to)?;
        Ok(())
    }

    /// Raises AllUpTo to this stamp, if that is later, and drops the deletions up to it. It takes
    /// no memory.
    pub fn advance(&mut self, t: Stamp)
        ensures merged { RaisesAllUpTo self.old self.new t }
        ensures dropped { DropsDeletions self.old self.new }
        ensures all_up_to { self.new.all_up_to ≡ together self.old.all_up_to (Some t) }
        ensures valid { IsValidTable self.old.table → IsValidTable self.new.table }
        ensures times { (n : ℕ) → ReplicaUpTo n self.old → t.time ≤ n → ReplicaUpTo n self.new }
    {
        let up_to = self.raise(t);
        self.table.drop_up_to(up_to);
    }

    /// The same, and its steps are counted: a deletion that the index of the table hands out is
    /// one, and so is each further record that is dropped with its entry.
    pub fn advance_counted<L: Ledger>(&mut self, t: Stamp, steps: &mut Steps<L>)
        ensures merged { RaisesAllUpTo self.old self.new t }
        ensures dropped { DropsDeletions self.old self.new }
        ensures all_up_to { self.new.all_up_to ≡ together self.old.all_up_to (Some t) }
        ensures valid { IsValidTable self.old.table → IsValidTable self.new.table }
        ensures times { (n : ℕ) → ReplicaUpTo n self.old → t.time ≤ n → ReplicaUpTo n self.new }
        ensures cost { steps.new + held_in self.new.table ≤ steps.old + held_in self.old.table + 1 }
        ensures exact_if_none { held_in self.old.table ≤ most_held → HasNone self.new.table →
            steps.new + held_in self.new.table ≡ steps.old + held_in self.old.table }
        ensures exact_if_some { held_in self.old.table ≤ most_held → (d : Deletion)
            → has_deletion self.new.table d ≡ true →
            steps.new + held_in self.new.table ≡ steps.old + held_in self.old.table + 1 }
    {
        let up_to = self.raise(t);
        forget(&mut self.table, up_to, steps);
    }

    /// Raises AllUpTo to this stamp, if that is later. What it is then.
    fn raise(&mut self, t: Stamp) -> Stamp
        ensures table { self.new.table ≡ self.old.table }
        ensures all_up_to { self.new.all_up_to ≡ Some result }
        ensures later { together self.old.all_up_to (Some t) ≡ Some result }
    {
        let up_to = &later_than(self.all_up_to, t);
        self.all_up_to = Some(*up_to);
        *up_to
    }

    /// How many entries, deaths, clears and marks of values it holds, or the last number of 64 bits
    /// where there are more.
    pub fn held(&self) -> u64
        ensures { result ≡ min (held_in self.now.table) most_held }
    {
        held_in(&self.table)
    }

    /// The greatest time in it: of its AllUpTo, and of its table.
    pub fn latest_time(&self) -> u64
        ensures { result ≡ latest_time self.now }
    {
        latest_in(self.table.iter()).max(time_of(self.all_up_to))
    }
}

/// The later of a stamp that may be missing and another.
fn later_than(own: Option<Stamp>, t: Stamp) -> Stamp
    ensures { together own (Some t) ≡ Some result }
{
    match own {
        Some(own) if !(own < t) => own,
        _ => t,
    }
}
