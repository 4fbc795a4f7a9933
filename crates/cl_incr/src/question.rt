//! The parts of the question of a chain, which is all that its lengths depend on. Times are in
//! ticks.
use cl_model::{AccessKind, StimulusKind};

/// What the lengths of a chain depend on in one of its groups. Times are in ticks.
#[derive(Clone, Copy, PartialEq, Eq)]
pub struct GroupQuestion {
    /// The pattern by which the jobs of its task arrive.
    pub pattern: StimulusKind,
    /// The deadline of its task, from arrival.
    pub deadline: u64,
    /// The kind of access of its task.
    pub access: AccessKind,
    /// The sum of the least execution times of the task's runnables before the group's first.
    pub before: u64,
    /// The sum of the least execution times of the task's runnables after the group's last.
    pub after: u64,
    /// The response of its task, or 0 where the task is late.
    pub response: u64,
}

/// How a hop between two groups is bounded.
#[derive(Clone, Copy, PartialEq, Eq)]
pub enum HopLine {
    /// Both groups are of one task.
    SameTask,
    /// The writer has a higher priority on the reader's core, and neither is timed, so the bound
    /// saves the writer's time to write.
    Saving,
    /// Any other hop.
    Plain,
}
