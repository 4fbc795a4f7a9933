//! What is found of a model by responses by phases and tight bounds, and whether that verifies the
//! model.
//!
//! Times are in ticks.
#![tactic(auto)]

mod access_windows;
mod findings;
mod found;
pub mod laws;
mod tightening;

pub use access_windows::AccessWindows;
pub use findings::TightFindings;
pub use tightening::{answer_by_phase, answer_tightly, is_verified, tighten};
