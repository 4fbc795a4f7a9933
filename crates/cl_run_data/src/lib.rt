//! Runs as data: a job table, and the entries of each core, kept as longest stretches.
#![tactic(auto)]

pub mod laws;
mod run_data;
mod stretches;

pub use run_data::RunData;
pub use stretches::Stretch;
