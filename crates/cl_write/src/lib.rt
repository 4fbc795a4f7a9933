//! Writing a model as the text of a model file.
#![tactic(auto)]

mod entries;
mod kinds;
pub mod laws;
mod lines;
mod tables;
mod writing;

pub use writing::write_model;
