//! Numbers: rounding up, divisors and multiples, and the counter of analysing steps.
#![tactic(auto)]

mod divisors;
pub mod laws;
mod no_memory;
mod rounding;
mod steps;

pub use divisors::{gcd, lcm_upto};
pub use no_memory::NoMemory;
pub use rounding::ceil_div;
pub use steps::Steps;
