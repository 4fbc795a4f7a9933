//! Tight bounds on the reaction, the age, the reduced age and the delay of a chain: bounds that know
//! how the arrivals of its tasks lie relative to each other.
//!
//! Only `walk_lasting` and `whole_walk` take memory. Times are in ticks.
#![tactic(auto)]

mod bounding;
mod course;
mod even;
mod keeping;
pub mod laws;
mod pace;
mod scanning;
mod stop;
mod stride;
mod walk;
mod walked;
mod whole;

pub use bounding::tight_bounds;
pub use pace::{MOST_ARRIVALS, Pace};
pub use stop::Stop;
pub use walked::{Walked, walk_lasting};
pub use whole::{WholeWalk, steady_from, turns_to_reach, whole_walk};
