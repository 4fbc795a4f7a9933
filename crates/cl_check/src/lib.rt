//! Checking whether a run is legal or in order, and finding when its jobs start and finish.
#![tactic(auto)]

mod apart;
mod checking;
mod in_order;
mod interval;
mod job_ends;
mod job_moments;
pub mod laws;
mod run_fault;
mod schedule_check;
mod table_check;
mod walk;

pub use apart::tasks_apart;
pub use checking::check_run;
pub use in_order::is_in_order;
pub use job_ends::{End, ends_apart};
pub use job_moments::{Moment, moments};
pub use run_fault::{Rule, RunFault};
