//! Laws of inquiries: functions that do nothing, whose contracts are proved.
ghost use Rattle.std.specs.Prelude.{◌≡◌, ◌≢◌, ◌≤◌, ◌↔◌, ℕ, List, [], ◌∷◌, take, drop, true};
ghost use Rattle.std.specs.List.{Contains, flat_map};
ghost use Rattle.ns_profiles.specs.declared.element.Element.{Element};
ghost use Rattle.ns_profiles.specs.Profiles.{elements_in};
ghost use Rattle.tower_codec.specs.declared.binding.StringBinding.{StringBinding};
ghost use Rattle.ns_inquire.specs.declared.inquiry.Inquiry.{Inquiry};
ghost use Rattle.ns_inquire.specs.Batches.{batches};
ghost use Rattle.ns_inquire.specs.Inquiries.{elements_of, is_picked};

/// An inquiry lists exactly the elements among the values that it asks for.
pub fn elements_are_those_asked_for()
    ensures { (inquiry : Inquiry) (values : List (List ℕ)) (e : Element)
        → Contains (elements_of inquiry values) e
        ↔ (Contains (elements_in values) e × (is_picked inquiry e ≡ true)) }
{}

/// The first batch is as many bindings as there may be, or all that are left, and the others are
/// those of the rest. Joined together they are the list.
pub fn batches_cut_a_list()
    ensures first { (most : ℕ) (left : List StringBinding) → 1 ≤ most → left ≢ []
        → batches most left ≡ take most left ∷ batches most (drop most left) }
    ensures joined { (most : ℕ) (left : List StringBinding)
        → flat_map (λ batch. batch) (batches most left) ≡ left }
{}
