//! Laws of the definitions: functions that do nothing, whose contracts are proved.
ghost use Rattle.std.specs.Prelude.{◌≡◌, ◌≢◌, ◌⊎◌, ◌↔◌, ◌-◌, ◌<◌, ◌≤◌, ℕ, Bool, true, false, List, [], length, get_or, Some, None};
ghost use Rattle.std.specs.List.{Contains, IsDistinct};
ghost use Rattle.std.specs.List.Sorted.{IsStrictlySortedBy};
ghost use Rattle.cds_stamps.specs.Ascending.{in_ascending_order};
ghost use Rattle.cds_stamps.specs.Firsts.{has, firsts};
ghost use Rattle.cds_stamps.specs.Fronts.{IsFirstBad, EndsEarly};
ghost use Rattle.cds_stamps.specs.Members.{Member, members_fault, most_members, masters_in, IsAscending, IsMembers};
ghost use Rattle.cds_stamps.specs.Names.{is_name_octet, simple_name_fault, longest_component, IsSimpleName, attr_fault, longest_attr, IsAttrName};
ghost use Rattle.cds_stamps.specs.Numbers.{root_dir, node_bits};
ghost use Rattle.cds_stamps.specs.Octets.{octets_cmp, is_octets};
ghost use Rattle.cds_stamps.specs.Places.{each_place};
ghost use Rattle.cds_stamps.specs.declared.members.MembersFault.TheVariants.{BadCount, NotAscending, BadMaster};
ghost use Rattle.cds_stamps.specs.declared.members.TheConstants.{MOST_MEMBERS};
ghost use Rattle.cds_stamps.specs.declared.names.AttrFault.TheVariants.{BadAttr};
ghost use Rattle.cds_stamps.specs.declared.names.NameFault.TheVariants.{Empty, BadOctet, ComponentTooLong};
ghost use Rattle.cds_stamps.specs.declared.names.TheConstants.{LONGEST_COMPONENT, LONGEST_ATTR};
ghost use Rattle.cds_stamps.specs.declared.numbers.TheConstants.DirId.{ROOT};
ghost use Rattle.cds_stamps.specs.declared.stamp.TheConstants.{NODE_BITS};

/// No fault is found exactly where the octets are a simple name.
pub fn simple_names_have_no_fault()
    ensures { (octets : List ℕ) → (simple_name_fault octets ≡ None) ↔ IsSimpleName octets }
{}

/// A fault of a simple name is at the first place at which the octets stop being the front of one:
/// no octet at all, an octet that no name has, or an octet of names that is one too many.
pub fn faults_of_simple_names_are_at_the_first_place()
    ensures empty { (octets : List ℕ) (place : ℕ) → simple_name_fault octets ≡ Some (Empty place)
        → EndsEarly IsSimpleName octets place }
    ensures octet { (octets : List ℕ) (place : ℕ) → simple_name_fault octets ≡ Some (BadOctet place)
        →
        IsFirstBad IsSimpleName octets place
        × (is_name_octet (get_or octets (place - 1) 0) ≡ false) }
    ensures too_long { (octets : List ℕ) (place : ℕ)
        → simple_name_fault octets ≡ Some (ComponentTooLong place) →
        IsFirstBad IsSimpleName octets place
        × (is_name_octet (get_or octets (place - 1) 0) ≡ true) }
{}

/// No fault is found exactly where the octets are an attribute name.
pub fn attribute_names_have_no_fault()
    ensures { (octets : List ℕ) → (attr_fault octets ≡ None) ↔ IsAttrName octets }
{}

/// The fault of an attribute name is at the first place at which the octets stop being the front of
/// one, or, of no octets, at place 1.
pub fn faults_of_attribute_names_are_at_the_first_place()
    ensures { (octets : List ℕ) (place : ℕ) → attr_fault octets ≡ Some (BadAttr place) →
        IsFirstBad IsAttrName octets place ⊎ EndsEarly IsAttrName octets place }
{}

/// No fault is found exactly where the members are 1 to 64, ascend, and have one master.
pub fn member_lists_have_no_fault()
    ensures { (ms : List Member) → (members_fault ms ≡ None) ↔ IsMembers ms }
{}

/// What the faults of a member list say. Their number comes first; of so many, the place is that of
/// the first member with which no list in ascending order goes on; and where all ascend, the
/// masters are not one. The place is told of the order alone, since a list whose members ascend may
/// still have no master, or two.
pub fn faults_of_member_lists_are_at_the_first_place()
    ensures count { (ms : List Member) → members_fault ms ≡ Some BadCount
        → ¬ ((0 < length ms) × (length ms ≤ most_members)) }
    ensures order { (ms : List Member) (place : ℕ) → members_fault ms ≡ Some (NotAscending place) →
        (0 < length ms) × (length ms ≤ most_members) × IsFirstBad IsAscending ms place }
    ensures master { (ms : List Member) → members_fault ms ≡ Some BadMaster →
        (0 < length ms) × (length ms ≤ most_members) × IsAscending ms × (masters_in ms ≢ 1) }
{}

/// The test at each of the first n places is the test at every place below n.
pub fn each_place_is_every_place()
    ensures { (n : ℕ) (test : ℕ → Bool)
        → (each_place n test ≡ true) ↔ ((p : ℕ) → p < n → test p ≡ true) }
{}

/// The limits and numbers that the code names are those of the definitions.
pub fn named_numbers_are_those_of_the_definitions()
    ensures most_members { MOST_MEMBERS ≡ most_members }
    ensures longest_component { LONGEST_COMPONENT ≡ longest_component }
    ensures longest_attr { LONGEST_ATTR ≡ longest_attr }
    ensures node_bits { NODE_BITS ≡ node_bits }
    ensures root { ROOT.0 ≡ root_dir }
{}

/// Octets in ascending order ascend, each once, and are those that were given; and no other list
/// does and has them.
pub fn octets_ascend_once()
    ensures rises { (all : List (List ℕ)) → IsStrictlySortedBy octets_cmp (in_ascending_order all) }
    ensures same { (all : List (List ℕ)) (o : List ℕ)
        → Contains (in_ascending_order all) o ↔ Contains all o }
    ensures only { (all once : List (List ℕ)) → IsStrictlySortedBy octets_cmp once
        → ((o : List ℕ) → Contains once o ↔ Contains all o) → once ≡ in_ascending_order all }
{}

/// The first places of a list have its items, each once.
pub fn first_places_stand_once()
    ensures same { (all : List (List ℕ)) (o : List ℕ)
        → has is_octets o (firsts is_octets [] all) ≡ has is_octets o all }
    ensures once { (all : List (List ℕ)) → IsDistinct is_octets (firsts is_octets [] all) }
{}
