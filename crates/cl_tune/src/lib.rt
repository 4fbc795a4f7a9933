//! Better designs by search: the best order of the priorities on every core, and how far execution
//! times may grow.
#![tactic(auto)]

mod answer;
mod filling;
mod fitting;
mod in_time;
pub mod laws;
mod ordering;
mod room;
mod times;

pub use answer::OrderAnswer;
pub use ordering::order;
pub use room::headroom;
