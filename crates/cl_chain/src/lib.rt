//! Job chains of a run: the complete chains of a job, the measured chains, and the greatest delay.
#![tactic(auto)]

mod backward_jobs;
mod chains_of_jobs;
mod delays;
mod forward_jobs;
mod group_moments;
mod heads;
mod hops;
mod job_chain;
mod measuring;
mod rows;
mod tails;

pub use chains_of_jobs::{backward, forward};
pub use delays::{measure_delay, measure_delay_apart, measure_with_delay_apart};
pub use job_chain::{JobChain, Measured};
pub use measuring::{measure, measure_apart};
