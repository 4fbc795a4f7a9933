//! Better designs as texts: the best cuts of the chains, the best orders of the priorities, and how
//! far execution times may grow.
#![tactic(auto)]

mod cuts;
mod headroom;
pub mod laws;
mod margins;
mod orders;

pub use cuts::cut_text;
pub use headroom::headroom_text;
pub use margins::margin_text;
pub use orders::order_text;
