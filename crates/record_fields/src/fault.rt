// Why octets are no record.
use cds_stamps::AllocOr;
use thiserror::Error;

/// A rule that a field of a record breaks: that it is there whole, or what its value is to be; or
/// the rule of callers that want an image and nothing after it, which no field breaks.
#[derive(Clone, Copy, Debug, PartialEq, Eq, Drop, Error)]
pub enum Rule {
    #[error("the octets end in a field")]
    Short,
    #[error("no format or tag that is known")]
    BadTag,
    #[error("a length or a count out of its range")]
    BadLength,
    #[error("octets that no name has")]
    BadName,
    #[error("a key or a stamp out of order")]
    OutOfOrder,
    #[error("a flag or a kind that is not known")]
    BadFlag,
    #[error("a stamp that is not later than the one that the record is above")]
    NotAbove,
    #[error("a count that is not how much the replica holds")]
    BadHeld,
    #[error("octets behind the image")]
    Trailing,
}

/// Why octets begin with no message or no image, and where: the place of the first octet of the
/// field that breaks its rule, counted from 1; of Short the number of octets and one more. Trailing
/// is told by callers that want an image and nothing after it: the readers here leave what follows.
#[derive(Clone, Copy, Debug, PartialEq, Eq, Drop, Error)]
#[error("{rule}, at {place}")]
pub struct RecordFault {
    pub rule: Rule,
    pub place: usize,
}

/// A field that breaks a rule, by the number of octets that are left from its first one on; none,
/// where it is not whole.
#[derive(Clone, Copy, Debug, PartialEq, Eq, Drop)]
pub struct Broken {
    pub rule: Rule,
    pub left: usize,
}

impl From<Broken> for AllocOr<Broken> {
    ghost use Rattle.std.specs.Prelude.{◌≡◌};
    ghost use Rattle.cds_stamps.specs.declared.alloc_or.AllocOr.TheVariants.{Fault};

    ghost from_gives = { λ b e. e ≡ Fault b };

    fn from(broken: Broken) -> AllocOr<Broken> {
        AllocOr::Fault(broken)
    }
}

/// Why a reader that takes memory gives no value.
pub type ReadError = AllocOr<Broken>;
