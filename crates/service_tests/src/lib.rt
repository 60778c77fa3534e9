//! Tests of the name service and of lines of scripts, of what neither a clause nor a case says: how
//! far an import searches, and calls that take memory and that the program does not make.
#![tactic(auto)]

#[cfg(test)]
mod clerks;
#[cfg(test)]
mod imports;
#[cfg(test)]
mod inquiries;
#[cfg(test)]
mod lists;
#[cfg(test)]
mod services;
