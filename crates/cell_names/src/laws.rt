//! Laws of the definitions: functions that do nothing, whose contracts are proved.
ghost use Rattle.std.specs.Prelude.{◌≡◌, ◌⊎◌, ◌-◌, ◌<◌, ◌≤◌, ◌^◌, ◌↔◌, IsTrue, ℕ, List, length, take, Some, None};
ghost use Rattle.std.specs.List.{All};
ghost use Rattle.cds_stamps.specs.Fronts.{IsFirstBad, EndsEarly};
ghost use Rattle.cds_stamps.specs.Names.{IsSimpleName};
ghost use Rattle.cds_stamps.specs.declared.names.NameFault.TheVariants.{Empty, BadOctet, ComponentTooLong};
ghost use Rattle.cell_names.specs.declared.houses.HousesFault.TheVariants.{BadHouses};
ghost use Rattle.cell_names.specs.declared.full_name.TheConstants.{LONGEST_NAME, ROOT};
ghost use Rattle.cell_names.specs.declared.houses.TheConstants.{MOST_HOUSES};
ghost use Rattle.cell_names.specs.FullNames.{cell_root, longest_name, name_fault, full_name_octets, components_of, splice_fault};
ghost use Rattle.cell_names.specs.FullNames.{is_name, IsNameOfAnyLength, IsComponentList, IsFullName};
ghost use Rattle.cell_names.specs.Houses.{Houses, most_houses, IsHouses, list_fault, is_houses};
ghost use Rattle.cell_names.specs.ChildPointers.{Pointer, IsPointer, IsChildPointer, pointer_octets, pointer_fault, pointer_of};

/// No fault is found exactly where the octets are the full name of some components.
pub fn full_names_have_no_fault()
    ensures { (octets : List ℕ) → (name_fault octets ≡ None) ↔ IsFullName octets }
{}

/// A fault of a full name that has a place is at the first place at which the octets stop being the
/// front of a name of any length: a component has no octet, an octet is none of names, or one too
/// many. Where a component is missing after the last octet, all octets are such a front. The length
/// in all is tested before, and is no fault with a place.
pub fn faults_of_full_names_are_at_the_first_place()
    ensures empty { (octets : List ℕ) (place : ℕ) → name_fault octets ≡ Some (Empty place) →
        IsFirstBad IsNameOfAnyLength octets place ⊎ EndsEarly IsNameOfAnyLength octets place }
    ensures octet { (octets : List ℕ) (place : ℕ) → name_fault octets ≡ Some (BadOctet place)
        → IsFirstBad IsNameOfAnyLength octets place }
    ensures too_long { (octets : List ℕ) (place : ℕ)
        → name_fault octets ≡ Some (ComponentTooLong place) →
        IsFirstBad IsNameOfAnyLength octets place }
{}

/// Octets without a fault spell their components, and what components spell has these components.
pub fn full_names_read_back()
    ensures spelled { (octets : List ℕ) → name_fault octets ≡ None
        → octets ≡ full_name_octets (components_of octets) }
    ensures lawful { (octets : List ℕ) → name_fault octets ≡ None
        → IsComponentList (components_of octets) }
    ensures read { (components : List (List ℕ)) → IsComponentList components
        → components_of (full_name_octets components) ≡ components }
{}

/// No fault is found exactly where simple names are the components of a full name.
pub fn spliced_names_have_no_fault()
    ensures { (components : List (List ℕ)) → All IsSimpleName components
        → (splice_fault components ≡ None) ↔ IsComponentList components }
{}

/// Two names are found the same exactly where they have the same components.
pub fn same_names_are_one()
    ensures { (a b : List (List ℕ)) → IsTrue (is_name a b) ↔ (a ≡ b) }
{}

/// No fault is found exactly where houses are those of a directory.
pub fn houses_have_no_fault()
    ensures { (master : ℕ) (others : List ℕ)
        → (list_fault master others ≡ None)
        ↔ IsHouses (record { master = master; others = others }) }
{}

/// A fault is at the first place up to which the houses are not those of a directory.
pub fn bad_houses_are_at_the_first_place()
    ensures { (master : ℕ) (others : List ℕ) (place : ℕ)
        → list_fault master others ≡ Some (BadHouses place) →
        (1 ≤ place) × (place ≤ length others)
        × IsHouses (record { master = master; others = take (place - 1) others })
        × ¬ IsHouses (record { master = master; others = take place others }) }
{}

/// Two lists of houses are found the same exactly where they have the same houses.
pub fn same_houses_are_one()
    ensures { (a b : Houses) → IsTrue (is_houses a b) ↔ (a ≡ b) }
{}

/// No fault is found exactly where the octets are those of a child pointer.
pub fn child_pointers_have_no_fault()
    ensures { (octets : List ℕ) → All (λ b. b < 2 ^ 8) octets
        → (pointer_fault octets ≡ None) ↔ IsChildPointer octets }
{}

/// What is written of a child pointer is read as that pointer, and what is read was written of it.
pub fn child_pointers_read_back()
    ensures read { (p : Pointer) → IsPointer p → pointer_of (pointer_octets p) ≡ Some p }
    ensures lawful { (octets : List ℕ) (p : Pointer) → All (λ b. b < 2 ^ 8) octets
        → pointer_of octets ≡ Some p → IsPointer p }
    ensures written { (octets : List ℕ) (p : Pointer) → All (λ b. b < 2 ^ 8) octets
        → pointer_of octets ≡ Some p → octets ≡ pointer_octets p }
{}

/// The root and the limits that the code names are those of the definitions.
pub fn named_limits_are_those_of_the_definitions()
    ensures root { ROOT.now ≡ cell_root }
    ensures longest_name { LONGEST_NAME ≡ longest_name }
    ensures most_houses { MOST_HOUSES ≡ most_houses }
{}
