//! What holds of the exact lengths of every chain of every sound system.
pub mod hops;
pub mod lengths;
pub mod runs;
pub mod turns;
