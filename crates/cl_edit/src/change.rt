//! Changes of a model, by the numbers of what they change. Times are in ticks.
use cl_model::{
    AccessKind, ChainDef, List, Name, RequirementDef, Step, StimulusKind, TaskDef, TaskPriority,
};

/// A change of a model, by the numbers of what it changes. Times are in ticks.
#[derive(PartialEq, Eq, Drop)]
pub enum Change {
    /// Sets the execution times of a runnable.
    Range {
        step: Step,
        least: u64,
        greatest: u64,
    },
    /// Sets whether a runnable is whole.
    Whole {
        step: Step,
        whole: bool,
    },
    /// Sets the kind of a stimulus, with all its numbers.
    Stimulus {
        stimulus: u32,
        kind: StimulusKind,
    },
    /// Sets the deadline of a task, or clears it.
    Deadline {
        task: u32,
        deadline: Option<u64>,
    },
    /// Sets the priorities of tasks, one after the other.
    Priorities(List<TaskPriority>),
    /// Sets the core and the priority of a task.
    Move {
        task: u32,
        core: Name,
        priority: u64,
    },
    /// Sets the kind of access of a task.
    Access {
        task: u32,
        access: AccessKind,
    },
    /// Appends a task.
    AddTask(TaskDef),
    /// Removes a task. The others keep their order.
    DropTask {
        task: u32,
    },
    /// Appends a chain.
    AddChain(ChainDef),
    /// Removes a chain. The others keep their order.
    DropChain {
        chain: u32,
    },
    /// Sets a requirement, which keeps its name.
    Requirement {
        requirement: u32,
        to: RequirementDef,
    },
    /// Appends a requirement.
    AddRequirement(RequirementDef),
    /// Removes a requirement. The others keep their order.
    DropRequirement {
        requirement: u32,
    },
    /// Changes nothing.
    Nothing,
}
