//! The limits of the octets of towers and of whole inputs, and of the numbers that forms have.

/// The octets that are looked at for one tower: one more than it may have.
pub const TOWER_SIGHT: usize = 1025;

/// How many towers there are at most.
pub const MOST_TOWERS: u32 = 16_777_216;

/// How many rounds the script of `load` has at most.
pub const MOST_ROUNDS: u32 = 20_000;

/// How many answers the clerk of `clerk` keeps at most.
pub const MOST_KEPT: u32 = 1000;

/// The greatest number of a directory.
pub const LAST_DIR: u32 = 4_294_967_295;

/// How many octets the input of a form that reads it whole has at most.
pub const MOST_WHOLE: usize = 16_777_216;

/// The octets that are read of it: one more than it may have.
pub const WHOLE_SIGHT: usize = 16_777_217;
