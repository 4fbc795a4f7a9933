//! What responses mean and promise, as laws over the definitions.
pub mod by_phase;
pub mod clear;
pub mod questions;
pub mod responses;
pub mod windows;
pub mod worst;
