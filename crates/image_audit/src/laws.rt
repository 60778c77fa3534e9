//! Laws of the definitions: functions that do nothing, whose contracts are proved.
ghost use Rattle.std.specs.Prelude.{◌≡◌, ℕ, List, Option, Some};
ghost use Rattle.std.specs.List.{Contains};
ghost use Rattle.cds_stamps.specs.declared.stamp.Stamp.{Stamp};
ghost use Rattle.cds_stamps.specs.declared.numbers.DirId.{DirId};
ghost use Rattle.directory.specs.Histories.{Mark, IsHistory, SameMarks, up_to};
ghost use Rattle.directory.specs.Purges.{purged_entries};
ghost use Rattle.purge_rule.specs.declared.replica.Replica.{Replica};
ghost use Rattle.cds_messages.specs.declared.image.Image.{Image};
ghost use Rattle.image_audit.specs.declared.fact.Fact.{Fact};
ghost use Rattle.image_audit.specs.declared.verdict.Verdict.TheVariants.{Agree, Differ};
ghost use Rattle.image_audit.specs.Facts.{facts};
ghost use Rattle.image_audit.specs.Verdicts.{smaller, replica_in, verdict};
ghost use Rattle.image_audit.specs.LawWords.{HasReplica, HoldsUpTo, OpenIn, IsFirstOpen};

/// Images with replicas of histories that agree up to the smaller AllUpTo are reported to agree. So
/// Differ shows that the histories do not.
pub fn agreeing_replicas_are_never_told_to_differ()
    ensures { (first second : Image) (dir : DirId) (h g : List Mark) (a b : Option Stamp) →
        HasReplica first dir h a → HasReplica second dir g b → IsHistory h → IsHistory g →
        SameMarks (up_to h (smaller a b)) (up_to g (smaller a b))
        → verdict first second dir ≡ Agree (smaller a b) }
{}

/// Where images with replicas of one AllUpTo are reported to agree, each has each fact of the other
/// up to it, or something in its place, and all that is in its place is later than that. Where the
/// two AllUpTo differ, nothing is said of what the smaller side has alone.
pub fn replicas_that_agree_hold_each_fact()
    ensures first { (first second : Image) (dir : DirId) (h g : List Mark) (t : Stamp) →
        HasReplica first dir h (Some t) → HasReplica second dir g (Some t)
        → verdict first second dir ≡ Agree (Some t) →
        (f : Fact) → Contains (facts (Some t) (purged_entries h (Some t))) f
        → HoldsUpTo t (purged_entries g (Some t)) f }
    ensures second { (first second : Image) (dir : DirId) (h g : List Mark) (t : Stamp) →
        HasReplica first dir h (Some t) → HasReplica second dir g (Some t)
        → verdict first second dir ≡ Agree (Some t) →
        (f : Fact) → Contains (facts (Some t) (purged_entries g (Some t))) f
        → HoldsUpTo t (purged_entries h (Some t)) f }
{}

/// Of two replicas that are reported to differ the fact that is reported is open, and comes before
/// every other open one: by name, the birth before the values, these by attribute and value, and of
/// one place that of the first image. Where they are reported to agree none is open.
pub fn the_first_open_fact_is_told()
    ensures differ { (first second : Image) (dir : DirId) (one two : Replica) →
        replica_in first dir ≡ Some one → replica_in second dir ≡ Some two →
        (image : ℕ) (f : Fact) → verdict first second dir ≡ Differ image f
        → IsFirstOpen one two image f }
    ensures agree { (first second : Image) (dir : DirId) (one two : Replica) →
        replica_in first dir ≡ Some one → replica_in second dir ≡ Some two →
        (t : Option Stamp) → verdict first second dir ≡ Agree t → (image : ℕ) (f : Fact)
        → OpenIn one two image f → ⊥ }
{}
