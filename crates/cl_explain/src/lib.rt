//! Why the responses and the bounds of a model are what they are, and what an engineer should know
//! of an accepted model.
//!
//! Times are in ticks.
#![tactic(auto)]

mod accepting;
mod explaining;
mod groups;
mod labels;
pub mod laws;
mod loads;
mod numbers;
mod parts;
mod tight;
mod times;

pub use accepting::accepted;
pub use explaining::explain;
pub use groups::{put_group_words, put_hop_head};
pub use numbers::{put_signed, put_wide};
pub use parts::{is_above, put_blocker};
pub use tight::put_arrival_words;
