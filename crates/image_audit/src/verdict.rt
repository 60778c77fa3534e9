// What an audit tells.
use crate::fact::Fact;
use cds_stamps::Stamp;

/// What an audit of a directory in two images tells.
pub enum Verdict {
    /// This image, 1 or 2, is the first that does not hold the directory.
    NoReplica(u8),
    /// No fact up to this stamp, the smaller AllUpTo, shows that the replicas disagree.
    Agree(Option<Stamp>),
    /// They do not agree: this image, 1 or 2, has this fact, for which the other replica does not
    /// answer.
    Differ(u8, Fact),
}

impl Drop for Verdict {
    fn drop(self) {
        match self {
            Verdict::NoReplica(_field_1) => (),
            Verdict::Agree(_field_1) => (),
            Verdict::Differ(_field_1, _field_2) => (),
        }
    }
}
