//! The exact lengths of chains whose tasks are all timed and periodic, and of parts of such chains,
//! with a witness of each.
//!
//! No call takes memory. Times are in ticks.
#![tactic(auto)]

mod beat;
mod beats;
mod block;
mod exact_lengths;
mod finding;
mod front_scan;
mod fronts;
mod hop;
mod hyperperiod;
mod job_numbers;
pub mod laws;
mod limit;
mod meeting;
mod scan;
mod start_up;
mod walk;
mod witness;

pub use beats::{are_timed_periodic, is_timed_periodic};
pub use exact_lengths::ExactLengths;
pub use finding::{exact, exact_of_groups};
pub use fronts::exact_reactions;
pub use hyperperiod::is_within_limit;
pub use job_numbers::JobNumbers;
pub use limit::{HyperLimit, MOST_FIRST_JOBS};
pub use witness::Witness;
