//! What `help` says: of all commands, and of each.
#![tactic(auto)]

mod overview;
mod texts;
mod topic;

pub use overview::HELP;
pub use texts::about;
pub use topic::{Topic, read_topic};
