//! The analysis of a model: the response of each task, the bounds and the exact lengths of each
//! chain, and the verdict on each requirement.
#![tactic(auto)]

mod analysing;
mod exact_answers;
mod findings;
mod judging;
pub mod laws;
mod task_answers;

pub use analysing::{analyse, answer_chain, first_late};
pub use exact_answers::answer_exact;
pub use findings::{ChainAnswer, ExactAnswer, Findings, Verdict};
pub use judging::{judge, judge_all, required_bound, verdict_on};
pub use task_answers::{answer_below, answer_question, answer_tasks};
