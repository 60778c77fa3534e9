//! Sessions of a house, of what no clause says: calls that take memory answer where there is
//! enough, and the texts of an example.
#![tactic(auto)]

#[cfg(test)]
mod sessions;
