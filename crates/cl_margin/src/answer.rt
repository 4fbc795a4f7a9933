//! How far execution times may grow, and what breaks first.
use cl_model::List;

/// What breaks first of what is met now.
#[derive(Clone, Copy, PartialEq, Eq)]
pub enum Breaks {
    /// The first task in file order that is late then and isn't now.
    Task { task: u32 },
    /// The first requirement in file order that isn't met then and is now. No task is late then
    /// that isn't now.
    Requirement { requirement: u32 },
    /// The model isn't valid: a time is out of range.
    Limit,
}

/// How far execution times may grow.
#[derive(Clone, Copy, PartialEq, Eq)]
pub struct Margin {
    /// The greatest percentage with which all holds that holds now.
    pub percent: u64,
    /// What breaks first at one percent more. There is nothing where the percentage is the most
    /// that is tried.
    pub breaks: Option<Breaks>,
}

/// How far the execution times of a model may grow.
#[derive(PartialEq, Eq, Drop)]
pub struct Margins {
    /// Those of all tasks at once.
    pub all: Margin,
    /// Those of each task alone, in file order.
    pub tasks: List<Margin>,
}
