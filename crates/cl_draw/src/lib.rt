//! The picture of a run: what its tasks and its chains do in a window of its ticks.
//!
//! `draw(alloc, model, run, from, to)` draws the ticks `from..to` of a legal run of a valid model,
//! where `from < to`, and `to` is at most the number of ticks of the run and at most 1,000,000,000
//! (`MOST_WINDOW`). For its text `IsPictureOf model run from to` holds (`specs/Picture.antt`): it
//! is the print of the elements of `picture`.
#![tactic(auto)]

mod chain_heights;
mod chain_lines;
mod cursor;
mod drawing;
mod items;
mod keeping;
pub mod laws;
mod mark_lines;
mod marks;
mod parts;
mod places;
mod reaction_lines;
mod reaction_steps;
mod reaction_words;
mod reactions;
mod room;
mod row_lines;
mod rows;
mod spans;
mod stops;
mod task_run;

pub use drawing::draw;
