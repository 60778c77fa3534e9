// A fault, or out of memory.
ghost use Rattle.std.specs.Prelude.{◌≡◌};
ghost use Rattle.cds_stamps.specs.declared.alloc_or.AllocOr.TheVariants.{OutOfMemory};

use std::alloc::{AllocError, AllocFailed};
use std::error::Error;
use std::fmt;
use std::fmt::{Debug, Display};

/// Why a call that makes a value made none: a fault of what it was given, or out of memory.
#[derive(Clone, Copy, Debug, PartialEq, Eq)]
pub enum AllocOr<E> {
    Fault(E),
    OutOfMemory,
}

impl<E: Display> Display for AllocOr<E> {
    fn fmt<W: fmt::Write>(&self, f: &mut fmt::Formatter<W>) -> fmt::Result {
        match self {
            AllocOr::Fault(fault) => write!(f, "{fault}"),
            AllocOr::OutOfMemory => write!(f, "out of memory"),
        }
    }
}

impl<E: Copy + Debug + Display> Error for AllocOr<E> {}

impl<E> From<AllocError> for AllocOr<E> {
    ghost from_gives = { λ _ e. e ≡ OutOfMemory };

    fn from(_error: AllocError) -> AllocOr<E> {
        AllocOr::OutOfMemory
    }
}

impl<E, T: Drop> From<AllocFailed<T>> for AllocOr<E> {
    ghost from_gives = { λ _ e. e ≡ OutOfMemory };

    fn from(_error: AllocFailed<T>) -> AllocOr<E> {
        AllocOr::OutOfMemory
    }
}
