//! Laws of the definitions: functions that do nothing, whose contracts are proved.
ghost use Rattle.std.specs.Prelude.{◌≡◌, ℕ, true, false};
ghost use Rattle.cds_stamps.specs.declared.mask.MemberMask.{MemberMask};
ghost use Rattle.cds_stamps.specs.Places.{has_place, each_place};
ghost use Rattle.skulk_core.specs.MasterRounds.{also, IsRound};

/// The answer that ends a round is of a member that was missing: a repeated answer, or one of the
/// master's own, ends none.
pub fn repeated_answers_end_no_round()
    ensures { (members me from : ℕ) (answered : MemberMask) →
        IsRound members me answered → has_place answered from ≡ true
        → each_place members (also answered from) ≡ false }
{}
