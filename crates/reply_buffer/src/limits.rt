//! The limits of towers as text, and of the replies that wait.

/// How many octets a tower has at most.
pub const LONGEST_TOWER: usize = 1024;

/// Replies are written at the latest when this many octets wait.
pub const MOST_WAITING: usize = 65_536;
