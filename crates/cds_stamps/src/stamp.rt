// Stamps, and the floor above which a house issues them.
ghost use Rattle.std.specs.Prelude.{◌≡◌, ◌^◌, ◌<◌, max, SomeIff, MatchOption, Some, None};
ghost use Rattle.cds_stamps.specs.Numbers.{node_bits};
ghost use Rattle.cds_stamps.specs.Semilattice.{maybe};
ghost use Rattle.cds_stamps.specs.Stamps.{next_stamp, later_stamp};

use std::marker::Model;

/// How many bits a node identifier has.
pub const NODE_BITS: u32 = 48;

/// A node identifier of 48 bits.
#[derive(Clone, Copy, Debug, PartialEq, Eq, PartialOrd, Ord)]
pub struct Node {
    number: u64,
}

impl Model for Node {
    ghost use Rattle.std.specs.Prelude.{ℕ, ◌^◌, ◌<◌};
    ghost use Rattle.cds_stamps.specs.Numbers.{node_bits};

    ghost Value = { ℕ };

    ghost view = { λ n. n.number };

    ghost invariant = { λ n. n.number < 2 ^ node_bits };

    ghost inverse = { λ n. record { number = n } };
}

impl Node {
    /// The node of a number, None exactly from 2^48 on.
    pub fn new(number: u64) -> Option<Node>
        ensures { SomeIff result (number < 2 ^ node_bits) number }
    {
        if number < 1 << NODE_BITS {
            Some(Node { number })
        } else {
            None
        }
    }

    /// The number of the node, below 2^48.
    pub fn number(&self) -> u64
        ensures same { result ≡ self.now }
        ensures below { result < 2 ^ node_bits }
    {
        self.number
    }
}

/// A time and the node that issued it, ordered by time and then by node. A time counts, and has no
/// unit: the clock of a house says which one is next, if the floor of the house is below it.
#[derive(Clone, Copy, Debug, PartialEq, Eq, PartialOrd, Ord)]
pub struct Stamp {
    pub time: u64,
    pub node: Node,
}

/// The later of two stamps of which either may be missing; None exactly where both are.
pub fn later_of(a: Option<Stamp>, b: Option<Stamp>) -> Option<Stamp>
    ensures { result ≡ maybe later_stamp a b }
{
    match (a, b) {
        (Some(x), Some(y)) => Some(if x < y { y } else { x }),
        (Some(x), None) => Some(x),
        (None, y) => y,
    }
}

/// The greatest time that a house has issued or taken in.
#[derive(Clone, Copy, Debug, PartialEq, Eq, PartialOrd, Ord)]
pub struct Floor {
    pub time: u64,
}

impl Floor {
    /// Issues a stamp above the floor and not before the clock, and the floor becomes its time.
    /// None exactly at the last time of 64 bits, where the floor stays.
    pub fn issue(&mut self, clock: u64, node: Node) -> Option<Stamp>
        ensures stamp { result ≡ next_stamp clock self.old.time node }
        ensures floor { MatchOption result (self.new ≡ self.old) (λ s. self.new.time ≡ s.time) }
    {
        if self.time == u64::MAX {
            return None;
        }
        self.time = clock.max(self.time + 1);
        Some(Stamp {
            time: self.time,
            node,
        })
    }

    /// Raises the floor to a time that was taken in.
    pub fn raise(&mut self, time: u64)
        ensures { self.new.time ≡ max self.old.time time }
    {
        self.time = self.time.max(time);
    }
}
