//! What houses post to each other, and what they keep over a crash. It knows neither octets nor
//! houses.
#![tactic(auto)]

mod image;
mod message;
mod tags;

pub use image::{Image, ImageDir, ImageDirs};
pub use message::{Body, Head, Message};
pub use tags::{ADVANCE, GATHER, GATHERED, JOIN, LEAVE, SPREAD, SPREAD_ACK, UPDATE};
