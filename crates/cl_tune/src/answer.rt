//! The answer on the orders of a model.
use cl_model::List;

/// The best priorities of a model, or the first core that has none.
#[derive(PartialEq, Eq, Drop)]
pub enum OrderAnswer {
    /// The priority of each task, in file order. On each core the priorities count from 1 upward,
    /// and a greater number is a higher priority.
    Order { priorities: List<u64> },
    /// No order of the tasks of this core passes, and it is the first such core in file order.
    NoOrder { core: u32 },
}
