//! Checks whether a model is in range and valid, and finds the first refusal of one that isn't
//! valid.
#![tactic(auto)]

use cl_model::ModelFault;

mod chains;
mod deadlines;
mod labels;
mod names;
mod places;
mod ranges;
mod runnables;
mod shares;
mod stimuli;
mod tasks;
mod validation;

pub use deadlines::spans_too_many;
pub use places::{at_spot, entry_of};
pub use ranges::{
    in_range, is_burst_count, is_chain_in_range, is_deadline_in_range, is_task_in_range, is_time,
};
pub use runnables::check_runnables;
pub use stimuli::{has_late_offset, has_long_burst, has_no_distance};
pub use validation::validate;

/// Why a model isn't accepted as valid: its first refusal, or want of memory.
pub type ValidFault = ModelFault;
