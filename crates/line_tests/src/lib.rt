//! Tests of lines of scripts and of houses, and of the records of a house, of what no clause says:
//! calls that take memory answer a value where there is enough.
#![tactic(auto)]

#[cfg(test)]
mod commands;
#[cfg(test)]
mod lines;
#[cfg(test)]
mod records;
