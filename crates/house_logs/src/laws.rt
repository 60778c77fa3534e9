// What follows of the definitions of journals.
ghost use Rattle.std.specs.Prelude.{◌≡◌, ◌++◌, ℕ, List, length};
ghost use Rattle.house_logs.specs.declared.fault.LogFault.{LogFault};
ghost use Rattle.house_logs.specs.Faults.{IsFaultOf};
ghost use Rattle.house_logs.specs.Logs.{AreOfHouse, IsSegment};

/// Octets have no fault if they are the segment that is next, and its records are the next ones of
/// the house.
#[tactic(auto, using(crate::proofs::SegmentLemmas::no_fault))]
pub fn good_segments_have_no_fault()
    ensures { (number : ℕ) (before : List ℕ) (bodies : List (List ℕ)) (octets : List ℕ)
        (more : List (List ℕ)) (after : List ℕ) (front : List (List ℕ)) (f : LogFault)
        → length before ≡ 32 → IsSegment number before octets more after
        → AreOfHouse (bodies ++ more) → ¬ IsFaultOf number before bodies octets front f }
{}
