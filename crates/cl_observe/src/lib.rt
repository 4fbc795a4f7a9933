//! What a run shows, legal or not, beside what is found of its model.
//!
//! Times are in ticks, and a number of a run that isn't legal may be below 0.
#![tactic(auto)]

mod chain_lines;
pub mod laws;
mod observing;
mod rules;
mod task_lines;
mod task_shown;
mod values;
mod words;

pub use observing::observe;
pub use rules::{breaker, rule_words};
