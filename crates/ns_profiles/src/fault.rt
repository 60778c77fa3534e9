use thiserror::Error;

/// Why there is no element, or none that was meant. A place is counted from 1.
#[derive(Clone, Copy, Debug, PartialEq, Eq, Drop, Error)]
pub enum ProfileFault {
    #[error("no element of a profile at {0}")]
    BadElement(usize),
    #[error("the priority is 8 for a default element, and 0 to 7 for any other")]
    BadPriority,
    #[error("the member's name and the annotation have more than 1,001 octets")]
    ElementTooLong,
    #[error("no such element")]
    NoSuchElement,
}
