// How a run of a house ends.

/// How a run of a house ends.
#[derive(Clone, Copy, Debug, PartialEq, Eq)]
pub enum Ending {
    /// The input ended.
    InputEnds,
    /// The input has a fault of octets.
    BadInput,
    ReadFault,
    WriteFault,
    OutOfMemory,
    /// The segment has no room for a record.
    Full,
    DiskFault,
    /// The segment has grown to the size at which another one is begun.
    Grown,
}
