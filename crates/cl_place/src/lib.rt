//! Where in the text of a model file a place is.
#![tactic(auto)]

mod mark;
mod places;
mod position;
mod steps;
mod walk;

pub use mark::without_mark;
pub use places::place_of;
pub use position::row_and_column;
