//! How far the greatest execution times of a model may grow, of all tasks and of each alone, until
//! something breaks that is met now, and what breaks first.
//!
//! Percentages are of the greatest execution times. Times are in ticks.
#![tactic(auto)]

mod allowed;
mod answer;
mod finding;
pub mod laws;
mod searching;
mod standing;
mod trial;
mod whose;

pub use answer::{Breaks, Margin, Margins};
pub use finding::margins;
pub use whose::{Whose, grown_time};
