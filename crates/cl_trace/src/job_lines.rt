//! Reading the job lines of a trace as a job table.
ghost use Rattle.std.specs.Prelude.{◌≡◌, ◌<◌, [], length, IfOk};
ghost use Rattle.cl_model.specs.{Name.IsName, ByNumber.task_at};
ghost use Rattle.cl_trace.specs.Inner.{Bodies.{AreJobsOf, AreJobLists}, Pieces.AreTasksNamed};

use crate::lines::job_after;
use cl_model::{List, ValidModel};
use cl_runs::Job;
use cl_time::NoMemory;
use std::alloc::Global;

/// Reads the jobs of all tasks, task by task, from all job lines that follow in this order, and
/// returns the rest of the text.
pub(crate) fn table_after<'a>(
    alloc: Global,
    model: &ValidModel,
    text: &'a [u8],
    lists: &mut List<List<Job>>,
) -> Result<&'a [u8], NoMemory>
    requires { lists.old ≡ [] }
    ensures count { IfOk result (λ _. length lists.new ≡ length model.now.tasks) }
    ensures lists { IfOk result (λ rest. AreJobLists model.now text.now lists.new rest.now) }
    ensures named { IfOk result (λ _. AreTasksNamed model.now) }
{
    let mut left = text;
    for task in 0..model.tasks() {
        let mut jobs = List::new(alloc);
        left = jobs_after(alloc, model, task, left, &mut jobs)?;
        lists.push(jobs)?;
    }
    Ok(left)
}

/// Reads the jobs of a task from all its job lines at the start of the text, and returns the rest
/// of the text.
fn jobs_after<'a>(
    alloc: Global,
    model: &ValidModel,
    task: u32,
    text: &'a [u8],
    jobs: &mut List<Job>,
) -> Result<&'a [u8], NoMemory>
    requires task { task < length model.now.tasks }
    requires none { jobs.old ≡ [] }
    ensures jobs { IfOk result (λ rest. AreJobsOf model.now task text.now jobs.new rest.now) }
    ensures named { IfOk result (λ _. IsName (task_at model.now task).name) }
{
    let mut left = text;
    while let Some((job, rest)) = job_after(alloc, model, task, left)? {
        jobs.push(job)?;
        left = rest;
    }
    Ok(left)
}
