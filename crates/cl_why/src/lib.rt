//! Why a task is answered, and a chain or a requirement bounded, as the decisions on a model say: the
//! worst window of a task with all that its ticks go to, and the walk of a chain that lasts as long
//! as its bound.
//!
//! Times are in ticks, and moments may lie before 0.
#![tactic(auto)]

mod hops;
pub mod laws;
mod reasons;
mod shares;
mod walks;
mod window;

pub use reasons::{why_chain, why_requirement, why_task};
