//! What holds of the bounds of every settled chain of every sound system.
pub mod delays;
pub mod hops;
pub mod safety;
pub mod sums;
