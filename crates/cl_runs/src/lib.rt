//! Runs and job chains: their definitions and laws.
#![tactic(auto)]

mod job;
pub mod laws;
mod times;

pub use job::{Job, JobTable};
pub use times::Times;
