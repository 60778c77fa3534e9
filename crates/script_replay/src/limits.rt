//! The limit of updates.

/// How many updates one command of the name service makes at most. A longer list would count as out
/// of memory, but none comes to it: a line of 4,096 octets gives an entry at most 192 values, and a
/// script has at most 16,777,216 lines, of which the first ones make the house and the root.
pub const MOST_UPDATES: usize = 3_221_225_472;
