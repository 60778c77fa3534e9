//! Tests of whole runs over ends in memory that fail, and of how much is read ahead and held back.
//! Whole scripts and towers stand in the cases of the program.
#![tactic(auto)]

#[cfg(test)]
mod disks;
#[cfg(test)]
mod failing;
#[cfg(test)]
mod scripts;
