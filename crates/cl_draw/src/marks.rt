//! The marks of a row: arrivals, deadlines and jitter. Times are in ticks.
ghost use Rattle.std.specs.Prelude.{◌≡◌, ◌<◌, length, IfOk};
ghost use Rattle.cl_model.specs.ByNumber.{deadline_of};
ghost use Rattle.cl_runs.specs.Run.{jobs_of};
ghost use Rattle.cl_picture.specs.Window.{is_inside, IsPictureWindow};
ghost use Rattle.cl_draw.specs.{Marks.{arrival_of, is_seen, arrivals, due_of, dues, wait_of, is_wait, waits, no_marks, marks_of}, Inner.TaskRuns.{IsTaskRun, passing}};

use crate::keeping::keep;
use crate::spans::Span;
use crate::task_run::TaskRun;
use cl_model::List;
use cl_picture::Window;
use cl_runs::Job;
use cl_time::NoMemory;
use std::alloc::Global;

/// The greatest number of arrivals in the window for which a row has marks.
pub const MOST_ARRIVALS: usize = 120;

/// The arrival of a job.
#[derive(Clone, Copy, PartialEq, Eq)]
pub struct Arrival {
    /// The job, counted from 0.
    pub job: u64,
    pub tick: u64,
}

/// The marks of a row, each kind in the order of the jobs.
#[derive(Drop)]
pub struct Marks {
    /// The arrivals in the window.
    pub arrivals: List<Arrival>,
    /// The moments in the window at which jobs are due.
    pub dues: List<u64>,
    /// The waits that share a tick with the window: of each job that is released after its arrival,
    /// from its arrival to its release.
    pub waits: List<Span>,
}

/// Returns the arrival of a job, if it lies in the window.
fn arrival_in(window: Window, jobs: &[Job], job: usize) -> Option<Arrival>
    requires { job < length jobs.now }
    ensures { result ≡ passing (is_seen window) (arrival_of jobs.now job) }
{
    let tick = jobs[job].arrival;
    if window.contains(tick) {
        Some(Arrival {
            job: job as u64,
            tick,
        })
    } else {
        None
    }
}

/// Collects the arrivals that lie in the window.
fn arrivals_in(alloc: Global, window: Window, jobs: &[Job]) -> Result<List<Arrival>, NoMemory>
    ensures { IfOk result (λ found. found ≡ arrivals window jobs.now) }
{
    let mut found = List::new(alloc);
    for job in 0..jobs.len() {
        keep(&mut found, arrival_in(window, jobs, job))?;
    }
    Ok(found)
}

/// Returns when a job is due, if that lies in the window.
fn due_in(window: Window, job: &Job, deadline: u64) -> Option<u64>
    requires { IsPictureWindow window }
    ensures { result ≡ passing (is_inside window) (due_of deadline job.now) }
{
    let due = job.arrival.saturating_add(deadline);
    if window.contains(due) {
        Some(due)
    } else {
        None
    }
}

/// Collects the moments in the window at which jobs are due.
fn dues_in(
    alloc: Global,
    window: Window,
    jobs: &[Job],
    deadline: u64,
) -> Result<List<u64>, NoMemory>
    requires { IsPictureWindow window }
    ensures { IfOk result (λ found. found ≡ dues window jobs.now deadline) }
{
    let mut found = List::new(alloc);
    for job in jobs {
        keep(&mut found, due_in(window, job, deadline))?;
    }
    Ok(found)
}

/// Returns the wait of a job from its arrival to its release, if it waits at all and shares a tick
/// with the window.
fn wait_in(window: Window, job: &Job) -> Option<Span>
    ensures { result ≡ passing (is_wait window) (wait_of job.now) }
{
    let wait = Span {
        from: job.arrival,
        to: job.release,
    };
    if wait.from < wait.to && wait.from < window.to && window.from < wait.to {
        Some(wait)
    } else {
        None
    }
}

/// Collects the waits of jobs that share a tick with the window.
fn waits_in(alloc: Global, window: Window, jobs: &[Job]) -> Result<List<Span>, NoMemory>
    ensures { IfOk result (λ found. found ≡ waits window jobs.now) }
{
    let mut found = List::new(alloc);
    for job in jobs {
        keep(&mut found, wait_in(window, job))?;
    }
    Ok(found)
}

/// Returns empty lists of marks.
fn no_marks(alloc: Global) -> Marks
    ensures { result ≡ no_marks }
{
    Marks {
        arrivals: List::new(alloc),
        dues: List::new(alloc),
        waits: List::new(alloc),
    }
}

/// Finds the marks of a task's row. It has none where more than `MOST_ARRIVALS` arrivals lie in the
/// window.
pub(crate) fn marks_of(alloc: Global, window: Window, of: TaskRun<'_>) -> Result<Marks, NoMemory>
    requires window { IsPictureWindow window }
    requires of { IsTaskRun of.model.now of.run.now of.task }
    ensures { IfOk result
        (λ marks. marks ≡ marks_of window (jobs_of of.entry.run.now of.entry.task) (deadline_of of.entry.model.now of.entry.task)) }
{
    let jobs = of.jobs();
    let arrivals = arrivals_in(alloc, window, jobs)?;
    if MOST_ARRIVALS < arrivals.len() {
        return Ok(no_marks(alloc));
    }
    let dues = dues_in(alloc, window, jobs, of.deadline())?;
    let waits = waits_in(alloc, window, jobs)?;
    Ok(Marks {
        arrivals,
        dues,
        waits,
    })
}
