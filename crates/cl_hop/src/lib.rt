//! Hops between groups: what is known of a group, lags and hops, their sums, and the bounds that
//! these sums make.
#![tactic(auto)]

mod bounds;
mod group_timing;
pub mod laws;
mod sums;

pub use bounds::Bounds;
pub use group_timing::GroupTiming;
pub use sums::Sums;
