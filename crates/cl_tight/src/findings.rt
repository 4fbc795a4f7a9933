//! What is found of a model by responses by phases and tight bounds. Times are in ticks.
use cl_analyse::{ChainAnswer, Verdict};
use cl_bound::TaskAnswer;
use cl_model::List;

/// What is found of a model by responses by phases and tight bounds.
#[derive(PartialEq, Eq, Drop)]
pub struct TightFindings {
    /// The answer by phases for each task, in file order.
    pub tasks: List<TaskAnswer>,
    /// The tight bounds of each chain or its first late task, in file order.
    pub chains: List<ChainAnswer>,
    /// The verdict on each requirement, in file order.
    pub verdicts: List<Verdict>,
}
