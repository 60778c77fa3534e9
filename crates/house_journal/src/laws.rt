//! Laws of the definitions: functions that do nothing, whose contracts are proved.
ghost use Rattle.std.specs.Prelude.{◌≡◌, ◌+◌, ◌<◌, ◌≤◌, ℕ, List, [], true, false, take, drop};
ghost use Rattle.house_journal.specs.Disks.{Told, Wrote, Stops, may_fail, with_piece};
ghost use Rattle.house_journal.specs.Tellings.{MayAnswer, TellsOne, plan_after_calls, put_calls, told_after, told_failed};
ghost use Rattle.house_journal.specs.declared.leave.Leave.{Leave};

/// What is told after a put. Where the first or second call failed, and nothing was told since the
/// last sync before it, that sync is still the last, and one write came since: the record without
/// its gate. Where the third or fourth failed, the last sync has that write, and the gate's write
/// came since. After all four nothing came since.
pub fn a_put_is_told_by_its_calls()
    ensures first { (place : ℕ) (octets file : List ℕ) (t : Told) (k : ℕ) → t.changes ≡ []
        → t.closed ≡ false → k < 2
        → TellsOne t.synced (Wrote (place + 1) (drop 1 octets))
        (told_failed k (put_calls place octets) file t) }
    ensures second { (place : ℕ) (octets file : List ℕ) (t : Told) (k : ℕ) → 2 ≤ k → k < 4
        → TellsOne (with_piece file (place + 1) (drop 1 octets)) (Wrote place (take 1 octets))
        (told_failed k (put_calls place octets) file t) }
    ensures done { (place : ℕ) (octets file : List ℕ) (t : Told)
        → ((told_after 4 (put_calls place octets) file t).changes ≡ [])
        × ((told_after 4 (put_calls place octets) file t).closed ≡ false) }
{}

/// A disk that stops once so many calls are done fails at the next: at no earlier one and at no
/// later one.
pub fn a_stop_comes_at_its_call()
    ensures at { (left : ℕ) (leave : Leave) (k : ℕ) → MayAnswer k (Stops left leave)
        → may_fail (plan_after_calls k (Stops left leave)) ≡ true → k ≡ left }
    ensures by { (left : ℕ) (leave : Leave) (k : ℕ) → MayAnswer k (Stops left leave) → k ≤ left }
{}
