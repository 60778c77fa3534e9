// The laws of histories, tables and updates, each the contract of a function that does nothing.
ghost use Rattle.std.specs.Prelude.{◌≡◌, ◌≢◌, ◌⊎◌, ℕ, List, [], ◌∷◌, ◌++◌, if◌then◌else◌, true, Option, Some, None, IsSome, IfSome, IsSomeAnd, is_none};
ghost use Rattle.std.specs.FinMap as map;
ghost use Rattle.std.specs.List.{AllByRecursion, Contains};
ghost use Rattle.cds_stamps.specs.Octets.{is_octets};
ghost use Rattle.cds_stamps.specs.Semilattice.{maybe};
ghost use Rattle.cds_stamps.specs.Stamps.{is_earlier, later_stamp};
ghost use Rattle.cds_stamps.specs.Undos.{RaisesAt};
ghost use Rattle.cell_names.specs.FullNames.{full_name_octets, IsComponentList};
ghost use Rattle.cell_names.specs.ChildPointers.{Pointer, pointer_octets};
ghost use Rattle.cell_names.specs.Houses.{IsHouses};
ghost use Rattle.cds_stamps.specs.declared.stamp.Stamp.{Stamp};
ghost use Rattle.directory.specs.declared.entry.EntryCell.{EntryCell};
ghost use Rattle.directory.specs.declared.entry.Fragment.{Fragment};
ghost use Rattle.directory.specs.Entries.{Entries, join_entries, join_tables, IsValidEntry, IsValidTable};
ghost use Rattle.directory.specs.declared.entry.Kind.TheVariants.{Object, Link, Child};
ghost use Rattle.directory.specs.Kinds.{link_target, replicas};
ghost use Rattle.directory.specs.Updates.{Change, Create, MakeLink, MakeChild, Delete, Add, Remove, Put, Clear, Repoint, changed_name};
ghost use Rattle.directory.specs.Applied.{TakesIn};
ghost use Rattle.directory.specs.Purges.{purged_entries, purged_table, take_table};
ghost use Rattle.directory.specs.Histories.{Mark, name_in, entry_of, table_of, HasBirths, IsHistory, IsBefore, SameMarks, CanMerge};
ghost use Rattle.directory.specs.EntryChanges.{creation, ChangesValue, AreAccepted};
ghost use Rattle.directory.specs.Shown.{is_readable, lead_of, shown_of_name, shown_in, new_pointer, refusal_of, marks_of, Shown, ChangesValues};

/// The table of two histories together is the join of their tables.
pub fn joins_are_unions()
    ensures { (g h : List Mark) → HasBirths g → HasBirths h
        → join_tables (table_of g) (table_of h) ≡ table_of (g ++ h) }
{}

/// The table of a history is valid, and that of no marks is empty.
pub fn tables_are_valid()
    ensures valid { (h : List Mark) → IsValidTable (table_of h) }
    ensures empty { table_of [] ≡ map.empty }
{}

/// A table shows what its history shows.
pub fn tables_show_histories()
    ensures { (h : List Mark) (n : List ℕ) → shown_in (table_of h) n ≡ shown_of_name h n }
{}

/// Neither the order nor repeats of marks count.
pub fn same_marks_make_one_table()
    ensures { (g h : List Mark) → SameMarks g h → table_of g ≡ table_of h }
{}

/// The marks of one name change that name alone: their entry is joined in.
pub fn marks_of_one_name_join_in()
    ensures { (h marks : List Mark) (n : List ℕ) (e : EntryCell) → HasBirths h → HasBirths marks
        → AllByRecursion (λ m. name_in m ≡ n) marks →
        entry_of marks n ≡ Some e → RaisesAt join_entries (table_of h) (table_of (h ++ marks)) n e }
{}

/// The marks of an accepted update, stamped later than the history, belong together, with the
/// history and to one name.
pub fn accepted_marks_belong()
    ensures together { (h : List Mark) (u : Change) (s : Stamp) → IsHistory h → IsBefore h s
        → refusal_of (shown_of_name h (changed_name u)) u ≡ None →
        IsHistory (marks_of (shown_of_name h (changed_name u)) u s) }
    ensures with_history { (h : List Mark) (u : Change) (s : Stamp) → IsHistory h → IsBefore h s
        → refusal_of (shown_of_name h (changed_name u)) u ≡ None →
        IsHistory (h ++ marks_of (shown_of_name h (changed_name u)) u s) }
    ensures one_name { (h : List Mark) (u : Change) (s : Stamp) → IsHistory h → IsBefore h s
        → refusal_of (shown_of_name h (changed_name u)) u ≡ None →
        AllByRecursion (λ m. name_in m ≡ changed_name u)
        (marks_of (shown_of_name h (changed_name u)) u s) }
{}

/// A table that stands for a history stands for it with the marks of one name, once their entry is
/// joined in.
pub fn joined_tables_stand()
    ensures { (h marks : List Mark) (n : List ℕ) (e : EntryCell) (old new : Entries) → HasBirths h
        → HasBirths marks →
        AllByRecursion (λ m. name_in m ≡ n) marks → entry_of marks n ≡ Some e → old ≡ table_of h →
        (IfSome (map.get old n) IsValidEntry → IsValidEntry e → RaisesAt join_entries old new n e)
        → new ≡ table_of (h ++ marks) }
{}

/// So does the table of the house that accepts an update, once the fragment is joined in.
pub fn accepted_tables_stand()
    ensures { (h : List Mark) (u : Change) (s : Stamp) → IsHistory h → IsBefore h s
        → refusal_of (shown_of_name h (changed_name u)) u ≡ None →
        (old new : Entries) (f : Fragment) → old ≡ table_of h → f.name ≡ changed_name u →
        entry_of (marks_of (shown_in old (changed_name u)) u s) f.name ≡ Some f.entry →
        (IfSome (map.get old f.name) IsValidEntry → IsValidEntry f.entry
        → RaisesAt join_entries old new f.name f.entry) →
        new ≡ table_of (h ++ marks_of (shown_of_name h (changed_name u)) u s) }
{}

/// So it does once the update is applied in place.
pub fn applied_tables_stand()
    ensures { (h : List Mark) (u : Change) (s : Stamp) → IsHistory h → IsBefore h s
        → refusal_of (shown_of_name h (changed_name u)) u ≡ None →
        (old new : Entries) → old ≡ table_of h →
        TakesIn old new (changed_name u) (marks_of (shown_in old (changed_name u)) u s)
        → new ≡ table_of (h ++ marks_of (shown_of_name h (changed_name u)) u s) }
{}

/// An accepted update, stamped later than the history, shows at once, and changes what shows of its
/// name alone: a created object shows with no values, a new link and a new child show with their
/// one value, a deleted entry no longer shows, and of a live entry one attribute is changed alone.
/// A repointed child is still a child of the same birth, and its pointer is the new one alone, to
/// the same directory.
pub fn accepted_updates_show()
    ensures others { (h : List Mark) (u : Change) (s : Stamp) → IsHistory h → IsBefore h s
        → refusal_of (shown_of_name h (changed_name u)) u ≡ None →
        (q : List ℕ) → q ≢ changed_name u
        → shown_of_name (h ++ marks_of (shown_of_name h (changed_name u)) u s) q
        ≡ shown_of_name h q }
    ensures created { (h : List Mark) (n : List ℕ) (s : Stamp) → IsHistory h → IsBefore h s →
        shown_of_name (h ++ marks_of (shown_of_name h n) (Create n) s) n
        ≡ Some (record { birth = s; kind = Object; values = λ _. [] }) }
    ensures linked { (h : List Mark) (n : List ℕ) (target : List (List ℕ)) (s : Stamp) → IsHistory h
        → IsBefore h s → IsComponentList target →
        shown_of_name (h ++ marks_of (shown_of_name h n) (MakeLink n target) s) n ≡
        Some (record { birth = s; kind = Link; values = λ a. if is_octets a link_target then full_name_octets target ∷ [] else [] }) }
    ensures child_made { (h : List Mark) (n : List ℕ) (p : Pointer) (s : Stamp) → IsHistory h
        → IsBefore h s →
        IsHouses (record { master = p.master; others = p.others }) →
        shown_of_name (h ++ marks_of (shown_of_name h n) (MakeChild n p) s) n ≡
        Some (record { birth = s; kind = Child; values = λ a. if is_octets a replicas then pointer_octets p ∷ [] else [] }) }
    ensures added { (h : List Mark) (n : List ℕ) (e : Shown) → shown_of_name h n ≡ Some e
        → (s : Stamp) (a v : List ℕ) → IsBefore h s →
        refusal_of (Some e) (Add n a v) ≡ None
        → IsSomeAnd (shown_of_name (h ++ marks_of (shown_of_name h n) (Add n a v) s) n)
        (ChangesValues e a (λ w. (w ≡ v) ⊎ Contains (e.values a) w)) }
    ensures removed { (h : List Mark) (n : List ℕ) (e : Shown) → shown_of_name h n ≡ Some e
        → (s : Stamp) (a v : List ℕ) → IsBefore h s →
        refusal_of (Some e) (Remove n a v) ≡ None
        → IsSomeAnd (shown_of_name (h ++ marks_of (shown_of_name h n) (Remove n a v) s) n)
        (ChangesValues e a (λ w. (w ≢ v) × Contains (e.values a) w)) }
    ensures put { (h : List Mark) (n : List ℕ) (e : Shown) → shown_of_name h n ≡ Some e
        → (s : Stamp) (a v : List ℕ) → IsBefore h s →
        refusal_of (Some e) (Put n a v) ≡ None
        → IsSomeAnd (shown_of_name (h ++ marks_of (shown_of_name h n) (Put n a v) s) n)
        (ChangesValues e a (λ w. w ≡ v)) }
    ensures cleared { (h : List Mark) (n : List ℕ) (e : Shown) → shown_of_name h n ≡ Some e
        → (s : Stamp) (a : List ℕ) → IsBefore h s →
        refusal_of (Some e) (Clear n a) ≡ None
        → IsSomeAnd (shown_of_name (h ++ marks_of (shown_of_name h n) (Clear n a) s) n)
        (ChangesValues e a (λ _. ⊥)) }
    ensures repointed { (h : List Mark) (n : List ℕ) (e : Shown) → shown_of_name h n ≡ Some e
        → (s : Stamp) (master : ℕ) (others : List ℕ) → IsBefore h s →
        refusal_of (Some e) (Repoint n master others) ≡ None →
        IsHouses (record { master = master; others = others }) →
        IsSomeAnd (shown_of_name (h ++ marks_of (shown_of_name h n) (Repoint n master others) s) n)
        (ChangesValues e replicas (λ w. w ≡ pointer_octets (new_pointer e master others))) }
    ensures deleted { (h : List Mark) (n : List ℕ) (e : Shown) → shown_of_name h n ≡ Some e
        → (s : Stamp) → shown_of_name (h ++ marks_of (shown_of_name h n) (Delete n) s) n ≡ None }
{}

/// A new link leads to its target, and a new or repointed child by its new pointer. An entry that
/// shows leads somewhere, unless it is an object, and where one leads reads as what its kind needs.
pub fn accepted_updates_lead()
    ensures linked { (h : List Mark) (n : List ℕ) (target : List (List ℕ)) (s : Stamp) → IsHistory h
        → IsBefore h s → IsComponentList target →
        IsSomeAnd (shown_of_name (h ++ marks_of (shown_of_name h n) (MakeLink n target) s) n)
        (λ e. lead_of e ≡ Some (full_name_octets target)) }
    ensures child_made { (h : List Mark) (n : List ℕ) (p : Pointer) (s : Stamp) → IsHistory h
        → IsBefore h s →
        IsHouses (record { master = p.master; others = p.others }) →
        IsSomeAnd (shown_of_name (h ++ marks_of (shown_of_name h n) (MakeChild n p) s) n)
        (λ e. lead_of e ≡ Some (pointer_octets p)) }
    ensures repointed { (h : List Mark) (n : List ℕ) (e : Shown) → shown_of_name h n ≡ Some e
        → (s : Stamp) (master : ℕ) (others : List ℕ) → IsBefore h s →
        refusal_of (Some e) (Repoint n master others) ≡ None →
        IsHouses (record { master = master; others = others }) →
        IsSomeAnd (shown_of_name (h ++ marks_of (shown_of_name h n) (Repoint n master others) s) n)
        (λ f. lead_of f ≡ Some (pointer_octets (new_pointer e master others))) }
    ensures led { (h : List Mark) (n : List ℕ) (e : Shown) → shown_of_name h n ≡ Some e
        → e.kind ≢ Object → IsSome (lead_of e) }
    ensures read { (e : Shown) (v : List ℕ) → lead_of e ≡ Some v → is_readable e.kind v ≡ true }
{}

/// Changes of an entry's values are accepted one after the other where the entry shows, and after
/// its creation where it is absent.
pub fn entry_changes_are_accepted()
    ensures shown { (h : List Mark) (n : List ℕ) (e : Shown) (us : List Change)
        → shown_of_name h n ≡ Some e
        → AllByRecursion (ChangesValue n) us → AreAccepted h us }
    ensures created { (h : List Mark) (n : List ℕ) (us : List Change) → IsHistory h
        → AllByRecursion (ChangesValue n) us
        → AreAccepted h (creation n (is_none (shown_of_name h n)) ++ us) }
{}

/// What is left of the table of a history when deletions up to a stamp are dropped is valid.
pub fn purged_tables_are_valid()
    ensures { (h : List Mark) (t : Option Stamp) → IsValidTable (purged_entries h t) }
{}

/// It shows what the history shows.
pub fn purged_tables_show_histories()
    ensures { (h : List Mark) (t : Option Stamp) (n : List ℕ)
        → shown_in (purged_entries h t) n ≡ shown_of_name h n }
{}

/// What is taken up to a stamp of a purged table, of marks that can be merged, makes the purged
/// table of both: beside a table that was purged up to that stamp, and beside one that was purged
/// up to an earlier one, where deletions are dropped afterwards.
pub fn purged_tables_merge()
    ensures purged { (h g : List Mark) (s : Option Stamp) (t : Stamp)
        → maybe later_stamp s (Some t) ≡ Some t → CanMerge h g (Some t) →
        take_table t (purged_entries h (Some t)) (purged_entries g s)
        ≡ purged_entries (h ++ g) (Some t) }
    ensures dropped { (h g : List Mark) (a s : Option Stamp) (t : Stamp)
        → maybe later_stamp a (Some t) ≡ Some t → maybe later_stamp s (Some t) ≡ Some t →
        CanMerge h g (Some t)
        → purged_table t (take_table t (purged_entries h a) (purged_entries g s))
        ≡ purged_entries (h ++ g) (Some t) }
{}

/// A purged table stands for a history with the marks of an accepted update, once it is applied in
/// place: where the update is stamped later than what was dropped.
pub fn applied_purged_tables_stand()
    ensures { (h : List Mark) (u : Change) (s : Stamp) → IsHistory h → IsBefore h s
        → refusal_of (shown_of_name h (changed_name u)) u ≡ None →
        (a : Option Stamp) → IfSome a (λ t. is_earlier t s ≡ true) → (old new : Entries)
        → old ≡ purged_entries h a →
        TakesIn old new (changed_name u) (marks_of (shown_in old (changed_name u)) u s)
        → new ≡ purged_entries (h ++ marks_of (shown_of_name h (changed_name u)) u s) a }
{}
