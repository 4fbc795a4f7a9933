//! What to mend in a list of edits: the lines after that of a refusal.
#![tactic(auto)]

mod bad_line;
mod found;
pub mod laws;
mod lines;
mod no_title;
mod other_kind;
mod refused_edit;
mod shapes;
mod unknown;

pub use bad_line::put_bad_line;
pub use no_title::put_no_title;
pub use other_kind::put_other_kind;
pub use refused_edit::put_refused_edit;
pub use unknown::put_unknown_name;
