//! The best cuts of chains: cuts into consecutive pieces whose values together bound the reaction
//! of the chain, by no more than the bound on the whole chain.
//!
//! Times are in ticks.
#![tactic(auto)]

mod answer;
mod cutting;
pub mod laws;
mod rears;
mod values;

pub use answer::CutAnswer;
pub use cutting::{best_cut, best_cuts};
