//! The answer on the cuts of a chain. Times are in ticks.
use cl_model::List;

/// The answer on the cuts of a chain. Times are in ticks.
#[derive(PartialEq, Eq, Drop)]
pub enum CutAnswer {
    /// The best cut: its cost, which bounds the reaction of the chain, and the number of the first
    /// group of each piece, in order and counted from 0.
    Cut { bound: u64, pieces: List<u32> },
    /// There is no best cut, since a task of the chain is late: this one is the first such along
    /// its steps.
    Late { task: u32 },
}
