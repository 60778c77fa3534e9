// What a stop of a disk leaves.

/// What is left after a stop of what was written since the last sync: all of it, nothing, or a
/// part.
#[derive(Clone, Copy, Debug, PartialEq, Eq)]
pub enum Leave {
    Keep,
    Drop,
    Torn,
}
