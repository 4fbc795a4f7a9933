//! Incremental analysis: what the lengths of a chain depend on is its question, and equal questions
//! have equal answers. So a session over a model that is edited answers only the questions that an
//! edit changed.
#![tactic(auto)]

mod anew;
mod chains;
mod comparing;
pub mod laws;
mod put;
mod question;
mod session;
mod standing;
mod tasks;
mod timings;

pub use question::{GroupQuestion, HopLine};
pub use session::Session;
