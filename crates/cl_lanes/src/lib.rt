//! The greatest gap between ends and their starts, and the first index with a given gap.
//!
//! Ends and starts are moments in ticks, paired by index. Both calls look at eight pairs at a time,
//! on SIMD lanes, and at the rest one by one. Neither takes memory.
#![tactic(auto)]

mod first;
mod greatest;
mod lanes;
pub mod laws;

pub use first::first_gap;
pub use greatest::greatest_gap;
