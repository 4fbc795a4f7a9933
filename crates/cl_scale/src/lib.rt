//! Models whose greatest execution times are scaled by a percentage.
#![tactic(auto)]

mod percent;
mod scaling;

pub use percent::MOST_PERCENT;
pub use scaling::{scaled, scaled_time};
