//! What a line of the form `journal` comes to: a cell answers it, and houses put their images into
//! their journals. It knows neither the whole input nor how a run ends.
#![tactic(auto)]

mod form;
mod images;
mod journals;
mod keeper;
mod stopping;
mod stops;

pub use journals::Journals;
