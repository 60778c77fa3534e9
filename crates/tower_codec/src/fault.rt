use thiserror::Error;

/// Why octets begin no tower: the first fault in their order. Each place counts the octets from 1.
#[derive(Clone, Copy, Debug, PartialEq, Eq, Error)]
pub enum TowerFault {
    /// The octets end in the number of floors. The place is the one after the last octet.
    #[error("the octets end in the number of floors, at place {0}")]
    ShortCount(usize),
    /// The octets end in the length of a part. The place is the one after the last octet.
    #[error("the octets end in the length of a part, at place {0}")]
    ShortLength(usize),
    /// The octets end in a part. The place is the one after the last octet.
    #[error("the octets end in a part, at place {0}")]
    ShortPart(usize),
    /// The left part of a floor is empty. The place is that of the first octet of its length.
    #[error("the left part of a floor is empty, at place {0}")]
    EmptyLeft(usize),
}

/// Why a text is no string binding: the first fault from the left.
#[derive(Clone, Copy, Debug, PartialEq, Eq, Error)]
pub enum BindingFault {
    /// What is before the first `@` is no UUID in its hyphenated form.
    #[error("what stands before `@` is no UUID")]
    BadObject,
    /// No `:` follows, or what is before it is no protocol sequence of the profile.
    #[error("the protocol sequence is unknown")]
    BadProtseq,
    /// The address is not four decimal numbers from 0 to 255 between dots.
    #[error("the address is not four numbers from 0 to 255")]
    BadAddress,
    /// The endpoint is not a decimal number from 0 to 65535 in brackets.
    #[error("the endpoint is not a number from 0 to 65535 in brackets")]
    BadEndpoint,
}
