//! Houses over disks in memory, in one process: what they keep through a crash in each call of
//! their disks, that five of them agree over a net that loses, repeats and reorders, and that each
//! question is answered.
#![tactic(auto)]

#[cfg(test)]
mod crashes;
#[cfg(test)]
mod lives;
#[cfg(test)]
mod net;
#[cfg(test)]
mod questions;
#[cfg(test)]
mod redoing;
