//! Laws of the definitions: functions that do nothing, whose contracts are proved.
ghost use Rattle.std.specs.Prelude.{◌≡◌, ◌≤◌, ◌↔◌, ◌++◌, ℕ, List, Option, Some, IfSome};
ghost use Rattle.std.specs.FinMap as map;
ghost use Rattle.std.specs.List.{AllByRecursion};
ghost use Rattle.cds_stamps.specs.declared.stamp.Stamp.{Stamp};
ghost use Rattle.directory.specs.declared.entry.EntryCell.{EntryCell};
ghost use Rattle.directory.specs.Entries.{Entries, IsValidTable};
ghost use Rattle.directory.specs.Histories.{Mark, entry_of, table_of, SameMarks, CanMerge};
ghost use Rattle.directory.specs.Purges.{purged_table, purged_entries, take_table};
ghost use Rattle.directory.specs.Shown.{shown_of_name, shown_in};
ghost use Rattle.purge_rule.specs.Replicas.{replica_of, delta_in, delta_of, IsDelta, together};
ghost use Rattle.purge_rule.specs.declared.delta.Delta.{Delta};
ghost use Rattle.purge_rule.specs.declared.replica.Replica.{Replica};
ghost use Rattle.purge_rule.specs.Latest.{EntryUpTo, TableUpTo, ReplicaUpTo, DeltaUpTo, MarkUpTo};
ghost use Rattle.purge_rule.specs.Latest.{latest_in, latest_in_entry, latest_time, latest_in_delta};

/// The table of a replica of a history is valid, and so is its delta.
pub fn replicas_are_valid()
    ensures replica { (h : List Mark) (t : Option Stamp) → IsValidTable (replica_of h t).table }
    ensures delta { (h : List Mark) (t : Option Stamp) → IsDelta (delta_of h t) }
{}

/// Neither the order nor repeats of marks count in a replica.
pub fn same_marks_make_one_replica()
    ensures { (g h : List Mark) (t : Option Stamp) → SameMarks g h
        → replica_of g t ≡ replica_of h t }
{}

/// A reader sees in a replica's table what the history shows.
pub fn replicas_show_histories()
    ensures { (h : List Mark) (t : Option Stamp) (n : List ℕ)
        → shown_in (replica_of h t).table n ≡ shown_of_name h n }
{}

/// What is left of the table of a history up to the later AllUpTo, with what is taken of that of
/// another that can be merged, is what is left of the table of both. What is taken of the other's
/// delta is the same.
pub fn purged_replicas_merge()
    ensures replica { (h g : List Mark) (a b : Option Stamp) (t : Stamp) →
        together a b ≡ Some t → CanMerge h g (Some t) →
        take_table t (purged_table t (table_of h)) (purged_entries g b)
        ≡ purged_entries (h ++ g) (Some t) }
    ensures delta { (h g : List Mark) (a b : Option Stamp) (t : Stamp) →
        together a b ≡ Some t → CanMerge h g (Some t) →
        take_table t (purged_table t (table_of h)) (delta_of g b).table
        ≡ purged_entries (h ++ g) (Some t) }
{}

/// The greatest time is at most n exactly where no time is later than n.
pub fn greatest_times_are_the_latest()
    ensures entry { (e : EntryCell) (n : ℕ) → (latest_in_entry e ≤ n) ↔ EntryUpTo n e }
    ensures table { (t : Entries) (n : ℕ) → (latest_in t ≤ n) ↔ TableUpTo n t }
    ensures replica { (r : Replica) (n : ℕ) → (latest_time r ≤ n) ↔ ReplicaUpTo n r }
    ensures delta { (d : Delta) (n : ℕ) → (latest_in_delta d ≤ n) ↔ DeltaUpTo n d }
{}

/// A delta has no later time than its replica.
pub fn deltas_make_no_later_time()
    ensures { (r : Replica) (n : ℕ) → ReplicaUpTo n r → DeltaUpTo n (delta_in r) }
{}

/// The table of marks, purged or not, and the entry of a name among them, have no later time than
/// the marks, and the empty table has none.
pub fn marks_make_no_later_time()
    ensures entry { (h : List Mark) (name : List ℕ) (n : ℕ) → AllByRecursion (MarkUpTo n) h →
        IfSome (entry_of h name) (EntryUpTo n) }
    ensures table { (h : List Mark) (n : ℕ) → AllByRecursion (MarkUpTo n) h
        → TableUpTo n (table_of h) }
    ensures purged { (h : List Mark) (t : Option Stamp) (n : ℕ) →
        AllByRecursion (MarkUpTo n) h → TableUpTo n (purged_entries h t) }
    ensures empty { (n : ℕ) → TableUpTo n map.empty }
{}
