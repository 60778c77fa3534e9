// What replicas join.
ghost use Rattle.std.specs.Prelude.{◌≡◌, OnOk, OnErr};

use std::alloc::{AllocError, Global};

/// A value that replicas join. On valid values neither the order of the joins nor repeats count.
pub trait Lattice: Sized {
    /// Holds of each value that a program makes.
    ghost valid: { Self → Type 0 };

    /// What two values give together.
    ghost joined: { Self → Self → Self };

    /// Joins another value into this one. After it ran out of memory this one is as it was.
    fn join(&mut self, alloc: Global, other: &Self) -> Result<(), AllocError>
        ensures ok { OnOk result (valid self.old → valid other.now
            → self.new ≡ joined self.old other.now) }
        ensures err { OnErr result (self.new ≡ self.old) };

    ghost keeps_valid: { (x y : Self) → valid x → valid y → valid (joined x y) };

    ghost commutative: { (x y : Self) → valid x → valid y → joined x y ≡ joined y x };

    ghost associative: { (x y z : Self) → valid x → valid y → valid z → joined (joined x y) z ≡ joined x (joined y z) };

    ghost idempotent: { (x : Self) → valid x → joined x x ≡ x };
}
