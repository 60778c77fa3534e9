// The tags of messages, by what they carry.

/// The marks of an accepted update.
pub const UPDATE: u8 = 1;

/// The first round of a skulk begins.
pub const GATHER: u8 = 2;

/// The answer, with a replica.
pub const GATHERED: u8 = 3;

/// The second round begins, with a replica.
pub const SPREAD: u8 = 4;

/// The answer.
pub const SPREAD_ACK: u8 = 5;

/// The skulk is complete.
pub const ADVANCE: u8 = 6;

/// The receiver is a member.
pub const JOIN: u8 = 7;

/// The receiver is a member no more.
pub const LEAVE: u8 = 8;
