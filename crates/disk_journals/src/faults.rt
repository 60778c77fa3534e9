// Why an image is not put.
ghost use Rattle.std.specs.Prelude.{◌≡◌};
ghost use Rattle.disk_journals.specs.declared.faults.Unkept.TheVariants as why;

use std::alloc::{AllocError, AllocFailed};

/// Why images are not put: memory ran out, or a journal has no room.
#[derive(Clone, Copy, Debug, PartialEq, Eq)]
pub enum Unkept {
    Full,
    OutOfMemory,
}

impl From<AllocError> for Unkept {
    ghost from_gives = { λ _ e. e ≡ why.OutOfMemory };

    fn from(_error: AllocError) -> Unkept {
        Unkept::OutOfMemory
    }
}

impl<T: Drop> From<AllocFailed<T>> for Unkept {
    ghost from_gives = { λ _ e. e ≡ why.OutOfMemory };

    fn from(_error: AllocFailed<T>) -> Unkept {
        Unkept::OutOfMemory
    }
}
