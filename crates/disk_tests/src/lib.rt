//! Tests of the ends of a program and of its disks, of what neither a clause nor a case says: how
//! ends of std fail, disks of which each call fails in turn, and segments that a crash leaves.
#![tactic(auto)]

#[cfg(test)]
mod ends;
#[cfg(test)]
mod faltering;
#[cfg(test)]
mod journals;
#[cfg(test)]
mod segments;
