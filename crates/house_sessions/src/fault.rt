// Why a call of a session is not done.
ghost use Rattle.std.specs.Prelude.{◌≡◌};
ghost use Rattle.house_sessions.specs.declared.fault.SessionFault.TheVariants as why;

use std::alloc::AllocError;
use thiserror::Error;

/// Why a call of a session is not done. It changes nothing then, but for the last two.
#[derive(Clone, Copy, Debug, PartialEq, Eq, Error)]
pub enum SessionFault {
    #[error("the session has not started")]
    NotStarted,
    #[error("the session has started")]
    Started,
    #[error("a record waits to be kept")]
    NotKept,
    #[error("no record waits to be kept")]
    NoneWaits,
    #[error("these octets are no line")]
    BadLine,
    #[error("the session is spent")]
    Spent,
    /// The session is spent after it.
    #[error("these octets are not the next record of the house")]
    NoRecord,
    /// The session is spent after it.
    #[error("out of memory")]
    OutOfMemory,
}

impl From<AllocError> for SessionFault {
    ghost from_gives = { λ _ f. f ≡ why.OutOfMemory };

    fn from(_error: AllocError) -> SessionFault {
        SessionFault::OutOfMemory
    }
}
