//! Tests of a clerk, of what no clause says: calls that take memory answer a value where there is
//! enough.
#![tactic(auto)]

#[cfg(test)]
mod inquiries;
#[cfg(test)]
mod lines;
#[cfg(test)]
mod reaches;
#[cfg(test)]
mod reads;
#[cfg(test)]
mod searches;
