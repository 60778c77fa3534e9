//! Laws of the definitions: functions that do nothing, whose contracts are proved.
ghost use Rattle.std.specs.Prelude.{◌≡◌, ◌<◌, ◌^◌, ◌↔◌, ℕ, List, Option, Some, None, is_none};
ghost use Rattle.std.specs.List.{All};
ghost use Rattle.tower_codec.specs.declared.rpc.Interface.{Interface};
ghost use Rattle.directory.specs.Histories.{Mark, IsHistory};
ghost use Rattle.directory.specs.Updates.{Create, Add, Remove};
ghost use Rattle.directory.specs.Shown.{Shown, shown_of_name, refusal_of};
ghost use Rattle.directory.specs.EntryChanges.{AreAccepted};
ghost use Rattle.ns_profiles.specs.declared.element.Element.{Element};
ghost use Rattle.ns_profiles.specs.Elements.{IsElement, IsElementOf, element_octets, element_fault, element_of};
ghost use Rattle.ns_profiles.specs.Profiles.{profile, element_addition, element_deletion};

/// No fault is found exactly where the octets are those of an element.
pub fn elements_have_no_fault()
    ensures { (octets : List ℕ) → All (λ b. b < 2 ^ 8) octets
        → (element_fault octets ≡ None) ↔ ((e : Element) × IsElementOf octets e) }
{}

/// What is written of an element is read as that element, and what is read was written of it; so
/// octets are those of one element at most.
pub fn elements_read_back()
    ensures read { (e : Element) → IsElement e → element_of (element_octets e) ≡ Some e }
    ensures known { (octets : List ℕ) (e : Element) → IsElementOf octets e
        → element_of octets ≡ Some e }
    ensures written { (octets : List ℕ) (e : Element) → All (λ b. b < 2 ^ 8) octets
        → element_of octets ≡ Some e → IsElementOf octets e }
{}

/// The updates of profiles are accepted: a name that shows nothing can be created, and of an entry
/// that shows, elements can be added and removed. Those that add an element are accepted one after
/// the other, whether the entry shows or is absent, and so are those that delete elements of an
/// entry that shows.
pub fn profile_updates_are_accepted()
    ensures additions { (h : List Mark) (n : List ℕ) (element : Element) → IsHistory h
        → AreAccepted h (element_addition n (is_none (shown_of_name h n)) element) }
    ensures deletions { (h : List Mark) (n : List ℕ) (e : Shown) (interface : Option Interface)
        (member : List (List ℕ))
        (values : List (List ℕ)) → shown_of_name h n ≡ Some e
        → AreAccepted h (element_deletion n interface member values) }
    ensures created { (n : List ℕ) → refusal_of None (Create n) ≡ None }
    ensures added { (e : Shown) (n v : List ℕ) → refusal_of (Some e) (Add n profile v) ≡ None }
    ensures removed { (e : Shown) (n v : List ℕ) → refusal_of (Some e) (Remove n profile v) ≡ None }
{}
