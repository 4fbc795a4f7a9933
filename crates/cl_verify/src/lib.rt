//! What is decided of each task and each requirement of a model: met, which holds in every legal
//! run, broken, which a legal run shows, or unshown, with how far a run came. And the text of it.
//!
//! Times are in ticks.
#![tactic(auto)]

mod deciding;
mod decision;
mod known_lengths;
pub mod laws;
mod lines;
mod runs;
mod text;
mod witness;

pub use deciding::{decide, decide_requirement, decide_task, limited_bound};
pub use decision::{Decision, Decisions, TaskDecision};
pub use lines::{put_requirement, put_seen, put_task};
pub use runs::Runs;
pub use text::verify_text;
pub use witness::{Witness, response_of, witness_of_chain, witness_of_task};
