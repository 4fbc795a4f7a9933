//! Decisions on tasks and requirements. Times are in ticks.
use cl_model::List;

/// What is decided of a task.
#[derive(Clone, Copy, PartialEq, Eq)]
pub enum TaskDecision {
    /// Its response is at most its deadline, in every legal run.
    Met { response: u64 },
    /// It is late by phases, and in a legal run a job of it misses its deadline.
    Broken,
    /// It is late by phases, and no run that was made shows that a job misses its deadline. `seen` is
    /// the greatest response that the run has, if one was made and a job finishes in it.
    Unshown { seen: Option<u64> },
}

/// What is decided of a requirement.
#[derive(Clone, Copy, PartialEq, Eq)]
pub enum Decision {
    /// The bound of its chain and kind is at most what is required, and so is each length in every
    /// legal run.
    Met { bound: u64 },
    /// The bound is greater, and so is the length `seen`, which a legal run has.
    Broken { bound: u64, seen: u64 },
    /// The bound is greater, and no run that was made shows a length that is. `seen` is the greater
    /// length of the runs, if they were made and have one.
    Unshown { bound: u64, seen: Option<u64> },
    /// This task of its chain is late, the first such along its steps, so there is no bound.
    Late { task: u32 },
}

/// What is decided of a model.
#[derive(PartialEq, Eq, Drop)]
pub struct Decisions {
    /// Of each task, in file order.
    pub tasks: List<TaskDecision>,
    /// Of each requirement, in file order.
    pub requirements: List<Decision>,
}
