//! Advice on a refused model file: the lines after the refusal, which say what to mend.
#![tactic(auto)]

mod advice;
mod entry;
mod found;
mod hop;
mod keys;
mod known;
pub mod laws;
mod measured;
mod mend;
mod of_edits;
mod position;
mod sentence;
mod shown;
mod sites;
mod unread;
mod want;
mod wanted;
mod with;

pub use advice::put_advice;
pub use known::{MOST_KNOWN, put_known_names};
pub use of_edits::put_edit_advice;
pub use shown::{MOST_QUOTED, MOST_SHOWN, put_quoted, put_shown};
pub use want::Want;
