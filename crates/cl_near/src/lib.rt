//! Runs that come near to a bound: of a chain, a run in which its jobs just miss and take as on the
//! longest walk, and of a task, one in which a job arrives in its worst window. What such a run
//! shows is so in a legal run.
//!
//! Times are in ticks, and moments may lie before 0.
#![tactic(auto)]

mod accesses;
mod blocker;
mod budget;
mod chain_jobs;
mod chain_plan;
mod chain_seen;
mod chain_wishes;
mod cores;
mod moments;
mod run_size;
mod sporadic;
mod task_plan;
mod task_seen;
mod task_wishes;
mod times;
mod witness;

pub use budget::{Budget, MOST_EXECUTIONS_OF_RUNS};
pub use chain_plan::{ChainPlan, plan_chain};
pub use chain_seen::seen_of_chain;
pub use run_size::{RunSize, size_of_run};
pub use task_plan::{TaskPlan, plan_task, window_of_run};
pub use task_seen::{SeenOfTask, seen_of_task};
pub use witness::{size_of_whole_run, witness_of_chain, witness_of_task};
