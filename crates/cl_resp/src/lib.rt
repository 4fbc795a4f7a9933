//! Responses: how long after its arrival a job of a task finishes at the latest.
#![tactic(auto)]

mod answering;
mod asking;
mod by_phase;
mod counted;
mod fixed;
pub mod laws;
mod phased;
mod question;
mod reached;
mod rising;
mod settled;
mod worst;

pub use answering::{demand, respond, respond_from, settle};
pub use asking::{ask, ask_either, ask_tight};
pub use by_phase::{respond_by_phase, respond_in_cycle, respond_through, widest_window};
pub use question::{Above, Block, Question};
pub use reached::{Reached, from_the_top, respond_below};
pub use settled::{Late, Settled};
pub use worst::{WorstWindow, worst_window};
