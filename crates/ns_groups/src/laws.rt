//! Laws of groups: functions that do nothing, whose contracts are proved.
ghost use Rattle.std.specs.Prelude.{◌≡◌, ◌≢◌, ◌↔◌, ◌⊎◌, ◌++◌, ℕ, List, None, Some, is_none, map, filter};
ghost use Rattle.std.specs.List.{Contains};
ghost use Rattle.std.specs.List.Sorted.{IsStrictlySortedBy};
ghost use Rattle.std.specs.Option.{IsSomeAnd};
ghost use Rattle.cds_stamps.specs.Octets.{octets_cmp};
ghost use Rattle.cds_stamps.specs.declared.stamp.Stamp.{Stamp};
ghost use Rattle.cell_names.specs.FullNames.{full_name_octets, components_of, is_full_name, IsComponentList, IsFullName};
ghost use Rattle.directory.specs.Histories.{Mark, IsHistory, IsBefore};
ghost use Rattle.directory.specs.Updates.{Create, Add, Remove};
ghost use Rattle.directory.specs.Shown.{Shown, shown_of_name, refusal_of, marks_of};
ghost use Rattle.directory.specs.EntryChanges.{AreAccepted};
ghost use Rattle.ns_groups.specs.Groups.{group, member_fault, members_of, IsMembers, delete_fault, member_addition, member_deletion};

/// No fault is found exactly in values that are full names.
pub fn member_values_have_no_fault()
    ensures { (octets : List ℕ) → (member_fault octets ≡ None) ↔ IsFullName octets }
{}

/// The members of a group are the one list of names that ascend by their octets, and are the full
/// names whose octets are a value.
pub fn members_are_one_list()
    ensures { (values : List (List ℕ)) (names : List (List (List ℕ)))
        → IsMembers values names ↔ (names ≡ members_of values) }
{}

/// Values that ascend, as those that an entry shows, spell the members in their own order.
pub fn ascending_values_keep_their_order()
    ensures { (values : List (List ℕ)) → IsStrictlySortedBy octets_cmp values
        → members_of values ≡ map components_of (filter is_full_name values) }
{}

/// What can be deleted are exactly the members.
pub fn only_members_are_deleted()
    ensures { (values : List (List ℕ)) (member : List (List ℕ)) → IsComponentList member
        → (delete_fault values member ≡ None) ↔ Contains (members_of values) member }
{}

/// The updates of groups are accepted: a name that shows nothing can be created, and of an entry
/// that shows, members can be added and removed. Those that add a member are accepted one after the
/// other, whether the entry shows or is absent, and so are those that delete one of an entry that
/// shows.
pub fn group_updates_are_accepted()
    ensures additions { (h : List Mark) (n : List ℕ) (member : List (List ℕ)) → IsHistory h
        → AreAccepted h (member_addition n (is_none (shown_of_name h n)) member) }
    ensures deletions { (h : List Mark) (n : List ℕ) (e : Shown) (member : List (List ℕ))
        → shown_of_name h n ≡ Some e
        → AreAccepted h (member_deletion n member) }
    ensures created { (n : List ℕ) → refusal_of None (Create n) ≡ None }
    ensures added { (e : Shown) (n : List ℕ) (member : List (List ℕ))
        → refusal_of (Some e) (Add n group (full_name_octets member)) ≡ None }
    ensures removed { (e : Shown) (n : List ℕ) (member : List (List ℕ))
        → refusal_of (Some e) (Remove n group (full_name_octets member)) ≡ None }
{}

/// An update that adds a member to an entry that shows leaves the members that were there and this
/// one, and one that removes it leaves the others.
pub fn group_updates_change_members()
    ensures added { (h : List Mark) (n : List ℕ) (e : Shown) (s : Stamp) (member : List (List ℕ))
        → shown_of_name h n ≡ Some e → IsBefore h s
        → IsComponentList member
        → IsSomeAnd (shown_of_name
        (h ++ marks_of (shown_of_name h n) (Add n group (full_name_octets member)) s) n)
        (λ f. (other : List (List ℕ))
        → Contains (members_of (f.values group)) other
        ↔ ((other ≡ member) ⊎ Contains (members_of (e.values group)) other)) }
    ensures removed { (h : List Mark) (n : List ℕ) (e : Shown) (s : Stamp) (member : List (List ℕ))
        → shown_of_name h n ≡ Some e → IsBefore h s
        → IsComponentList member
        → IsSomeAnd (shown_of_name
        (h ++ marks_of (shown_of_name h n) (Remove n group (full_name_octets member)) s) n)
        (λ f. (other : List (List ℕ))
        → Contains (members_of (f.values group)) other
        ↔ ((other ≢ member) × Contains (members_of (e.values group)) other)) }
{}
