//! Edits: small changes of a model. Times are in ticks.
ghost use Rattle.std.specs.Prelude.{◌≡◌};
ghost use Rattle.cl_edit.specs.Reading.{writes_text};

use cl_model::{AccessKind, ChainDef, List, Name, RequirementDef, TaskDef};

/// The priority that the task of a name gets.
#[derive(PartialEq, Eq, Drop)]
pub struct NamedPriority {
    pub task: Name,
    pub priority: u64,
}

/// A change of a model. Times are in ticks.
#[derive(PartialEq, Eq, Drop)]
pub enum Edit {
    /// Sets the execution times of a runnable.
    Range {
        runnable: Name,
        least: u64,
        greatest: u64,
    },
    /// Sets whether a runnable is whole: whether it runs to its end without a break once it has
    /// started.
    Whole {
        runnable: Name,
        whole: bool,
    },
    /// Sets the period of a periodic stimulus.
    Period {
        stimulus: Name,
        period: u64,
    },
    /// Sets the offset of a periodic stimulus or of a burst.
    Offset {
        stimulus: Name,
        offset: u64,
    },
    /// Sets the jitter of a periodic stimulus.
    Jitter {
        stimulus: Name,
        jitter: u64,
    },
    /// Sets the least and the greatest distance of a sporadic stimulus.
    Distances {
        stimulus: Name,
        least: u64,
        greatest: u64,
    },
    /// Sets the period, the count and the distance of a burst. The offset stays as it is.
    Burst {
        stimulus: Name,
        period: u64,
        count: u64,
        distance: u64,
    },
    /// Sets the deadline of a task, or clears it, so that it becomes the least distance of the
    /// task's stimulus.
    Deadline {
        task: Name,
        deadline: Option<u64>,
    },
    /// Exchanges the priorities of two tasks.
    Swap {
        one: Name,
        other: Name,
    },
    /// Sets the priorities of one or more tasks at once. No task stands twice.
    Priorities(List<NamedPriority>),
    /// Sets the core and the priority of a task.
    Move {
        task: Name,
        core: Name,
        priority: u64,
    },
    /// Sets the kind of access of a task: when its runnables read and write labels.
    Kind {
        task: Name,
        access: AccessKind,
    },
    /// Appends a task.
    AddTask(TaskDef),
    /// Removes a task. The others keep their order.
    DropTask {
        task: Name,
    },
    /// Appends a chain.
    AddChain(ChainDef),
    /// Removes a chain. The others keep their order.
    DropChain {
        chain: Name,
    },
    /// Sets the requirement of that name, or appends it where there is none.
    Requirement(RequirementDef),
    /// Removes a requirement. The others keep their order.
    DropRequirement {
        requirement: Name,
    },
    /// Changes nothing. The findings are reported here.
    Report,
    /// Changes nothing. The tight bounds are written here.
    Tighten,
    /// Changes nothing. The verdicts are written here.
    Verify,
}

impl Edit {
    /// Whether nothing is changed and something is written.
    pub(crate) fn is_written(&self) -> bool
        ensures { result ≡ writes_text self.now }
    {
        matches!(self, Edit::Report | Edit::Tighten | Edit::Verify)
    }
}
