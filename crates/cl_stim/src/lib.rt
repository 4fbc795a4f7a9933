//! Arrivals: what a stimulus says about the jobs of a task, as a trait whose laws hold of each list
//! of jobs that follows it; and phases, the arrivals of a stimulus that are fixed.
#![tactic(auto)]

mod any_stimulus;
mod arrivals;
mod burst;
pub mod laws;
mod periodic;
mod phase;
mod sporadic;

pub use any_stimulus::AnyStimulus;
pub use arrivals::{Arrivals, MOST_WIDTH};
pub use burst::Burst;
pub use periodic::Periodic;
pub use phase::Phase;
pub use sporadic::Sporadic;
