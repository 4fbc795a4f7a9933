//! Jobs of tasks, and tables of them. Times are in ticks.
use crate::times::Times;
use cl_model::List;

/// One job of a task.
#[derive(Drop)]
pub struct Job {
    /// The tick at which it arrives.
    pub arrival: u64,
    /// The tick at which it is released: in a lawful table at or after its arrival.
    pub release: u64,
    /// The execution time of each runnable of its task, in order.
    pub times: Times,
}

/// The jobs of each task that arrive in the first `ticks` ticks.
#[derive(Drop)]
pub struct JobTable {
    /// The number of ticks.
    pub ticks: u64,
    /// For each task, in file order, its jobs: in a lawful table in the order of their arrivals.
    pub jobs: List<List<Job>>,
}

impl JobTable {
    ghost use Rattle.std.specs.Prelude.{◌≡◌, ◌<◌, length};
    ghost use Rattle.cl_runs.specs.Table.{table_jobs};

    /// Returns the jobs of a task.
    pub fn jobs_of(&self, task: u32) -> &[Job]
        requires { task < length self.now.jobs }
        ensures { result.now ≡ table_jobs self.now task }
    {
        self.jobs.as_slice()[task as usize].as_slice()
    }
}
