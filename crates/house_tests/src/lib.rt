//! Tests of houses and of what they keep, of what neither a clause nor a case says: that no table
//! is walked, and calls that take memory and that the program does not make.
#![tactic(auto)]

#[cfg(test)]
mod deaths;
#[cfg(test)]
mod houses;
#[cfg(test)]
mod purges;
#[cfg(test)]
mod records;
#[cfg(test)]
mod tables;
