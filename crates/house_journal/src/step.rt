// What a disk in memory keeps of each write and cut, and when it stops.
ghost use Rattle.std.specs.Prelude.{◌≤◌};

use crate::Leave;
use cds_stamps::Octets;

/// A write of so many octets at a place, or a cut to that place.
#[derive(Drop)]
pub(crate) struct Step {
    pub(crate) cuts: bool,
    pub(crate) at: usize,
    pub(crate) len: usize,
    /// The octets that it replaced, or cut off.
    pub(crate) gone: Octets,
    /// Whether a sync came after it, before any other step.
    pub(crate) synced: bool,
}

/// A write of which the first half is kept: its place, its end, and that half.
#[derive(Drop)]
pub(crate) struct Tear {
    pub(crate) at: usize,
    pub(crate) end: usize,
    pub(crate) half: Octets,
    ghost ordered: { at ≤ end },
}

/// When a disk stops.
#[derive(Clone, Copy, Debug, PartialEq, Eq)]
pub(crate) enum Stop {
    Never,
    /// Once so many calls more that write, cut or sync are done, by the call after them.
    After(u64, Leave),
    Stopped(Leave),
}
