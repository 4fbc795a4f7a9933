//! Bounds on the reaction, the age, the reduced age and the delay of a chain.
#![tactic(auto)]

mod answer;
mod bounding;
pub mod laws;

pub use answer::TaskAnswer;
pub use bounding::{bound, bound_of_groups, reaction_bounds, timing_of};
