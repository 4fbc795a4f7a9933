//! The range check of an edit.
ghost use Rattle.std.specs.Prelude.{◌↔◌, IsTrue};
ghost use Rattle.cl_edit.specs.Ranges.{ArePrioritiesInRange, IsEditInRange};

use crate::edit::{Edit, NamedPriority};
use cl_model::{MOST_PRIORITY, MOST_REQUIRED, MOST_TASKS, MOST_TICKS};
use cl_valid::{
    is_burst_count, is_chain_in_range, is_deadline_in_range, is_task_in_range, is_time,
};

/// Whether the priorities are few enough, and each is in range.
fn are_in_range(priorities: &[NamedPriority]) -> bool
    ensures { IsTrue result ↔ ArePrioritiesInRange priorities.now }
{
    priorities.len() <= MOST_TASKS && priorities.iter().all(|p| p.priority <= MOST_PRIORITY)
}

impl Edit {
    /// Whether each number of the edit may stand in a model file at the key that the edit sets, and
    /// each list of the edit is no longer than a model file allows. Takes no memory.
    pub fn in_range(&self) -> bool
        ensures { IsTrue result ↔ IsEditInRange self.now }
    {
        match self {
            Edit::Range {
                least,
                greatest,
                ..
            }
            | Edit::Distances {
                least,
                greatest,
                ..
            } => is_time(*least) && is_time(*greatest),
            Edit::Period { period, .. } => is_time(*period),
            Edit::Offset { offset, .. } => *offset <= MOST_TICKS,
            Edit::Jitter { jitter, .. } => *jitter <= MOST_TICKS,
            Edit::Burst {
                period,
                count,
                distance,
                ..
            } => is_time(*period) && is_burst_count(*count) && is_time(*distance),
            Edit::Deadline { deadline, .. } => is_deadline_in_range(*deadline),
            Edit::Move { priority, .. } => *priority <= MOST_PRIORITY,
            Edit::Priorities(priorities) => are_in_range(priorities.as_slice()),
            Edit::Requirement(requirement) => requirement.most <= MOST_REQUIRED,
            Edit::AddTask(task) => is_task_in_range(task),
            Edit::AddChain(chain) => is_chain_in_range(chain),
            Edit::Whole { .. }
            | Edit::Swap { .. }
            | Edit::Kind { .. }
            | Edit::DropTask { .. }
            | Edit::DropChain { .. }
            | Edit::DropRequirement { .. }
            | Edit::Report
            | Edit::Tighten
            | Edit::Verify => true,
        }
    }
}
