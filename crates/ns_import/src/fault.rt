// Why an import does not begin.

use resolver::Refusal;
use thiserror::Error;

/// Why there is no import of a name.
#[derive(Clone, Copy, Debug, PartialEq, Eq, Drop, Error)]
pub enum ImportFault {
    #[error("{0}")]
    Walk(Refusal),
    #[error("the entry is no object")]
    NotObject,
}
