//! The question of a task: what its response depends on. Times are in ticks.
use cl_model::List;
use cl_stim::AnyStimulus;

/// A task of higher priority on the same core, as far as the response of a task depends on it.
#[derive(PartialEq, Eq, Drop)]
pub struct Above {
    /// The pattern of its arrivals.
    pub stimulus: AnyStimulus,
    /// The greatest execution time of a job.
    pub time: u64,
}

/// Which whole runnables, once begun, block a task in its question. Those of higher priority never
/// do.
#[derive(Clone, Copy, PartialEq, Eq)]
pub enum Block {
    /// Those of tasks of lower priority on its core, as in the tight question.
    OfLower,
    /// Those of tasks of lower priority on its core, and those of the task itself.
    WithOwn,
}

/// What the response of a task depends on.
#[derive(PartialEq, Eq, Drop)]
pub struct Question {
    /// The greatest execution time of a job of the task.
    pub time: u64,
    /// How long a whole runnable that has begun may hold the core: one of a task of lower priority
    /// or, in a question that isn't tight, one of the task itself. 0 where there is none.
    pub block: u64,
    /// How long after its arrival a job is released at most.
    pub jitter: u64,
    /// The deadline of the task, from arrival.
    pub deadline: u64,
    /// The tasks of higher priority on its core, in file order.
    pub above: List<Above>,
}
