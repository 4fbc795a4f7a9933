//! The replay of a run: what is measured of each chain, beside its bounds.
#![tactic(auto)]

pub mod laws;
mod lines;
mod measuring;
mod pieces;
mod replaying;

pub use replaying::replay;
