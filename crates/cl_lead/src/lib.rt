//! The lead of a runnable: how long after the arrival of its job it reads at least, since those
//! above it that have arrived run first.
//!
//! Times are in ticks. Nothing here takes memory.
#![tactic(auto)]

pub mod laws;
mod lead;
mod sure;

pub use lead::lead_of;
