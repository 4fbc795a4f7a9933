//! How far a task has come with its jobs, which it executes in order. Times are in ticks.
ghost use Rattle.std.specs.Prelude.{◌≡◌, ℕ, ◌+◌, ◌<◌, ◌≤◌, length};
ghost use Rattle.cl_runs.specs.{Table.job_at, Work.{work_before, work_through}};
ghost use Rattle.cl_sched.specs.{Progress.{IsAtRunnable, HasComeTo}, Inner.TakingTime.TakeTime};

use cl_runs::Job;

/// How far a task has come: the runnable of its first unfinished job that it executes next, and how
/// much of it is left.
#[derive(Clone, Copy, PartialEq, Eq)]
pub struct Progress {
    /// The number of the task.
    pub task: u32,
    /// The priority of the task; a greater number is a higher priority.
    pub priority: u64,
    /// The number of the first unfinished job, or the number of jobs where all have finished.
    pub job: usize,
    /// The index of the first unfinished runnable of that job, 0 where all jobs have finished.
    pub place: usize,
    /// How many ticks of that runnable are left, 0 where all jobs have finished.
    pub left: u64,
    /// The tick at which that job is released, or the greatest `u64` where all jobs have finished.
    pub release: u64,
}

impl Progress {
    /// Returns how far a task has come that has finished exactly the jobs before a job.
    pub(crate) fn before(jobs: &[Job], task: u32, priority: u64, job: usize) -> Progress
        requires take_time { TakeTime jobs.now }
        requires job { job ≤ length jobs.now }
        ensures task { result.task ≡ task }
        ensures priority { result.priority ≡ priority }
        ensures begins { HasComeTo jobs.now (work_before jobs.now job 0) result }
    {
        match jobs.get(job) {
            Some(next) => Progress {
                task,
                priority,
                job,
                place: 0,
                left: next.times.as_slice()[0],
                release: next.release,
            },
            None => Progress {
                task,
                priority,
                job,
                place: 0,
                left: 0,
                release: u64::MAX,
            },
        }
    }

    /// Returns how far the task has come once the runnable has finished.
    fn after_runnable(self, jobs: &[Job]) -> Progress
        requires take_time { TakeTime jobs.now }
        requires at { (done : ℕ) × IsAtRunnable jobs.now done self }
        ensures task { result.task ≡ self.task }
        ensures priority { result.priority ≡ self.priority }
        ensures next { HasComeTo jobs.now (work_through jobs.now self.job self.place) result }
    {
        let times = jobs[self.job].times.as_slice();
        let place = self.place + 1;
        if place < times.len() {
            return Progress {
                place,
                left: times[place],
                ..self
            };
        }
        Progress::before(jobs, self.task, self.priority, self.job + 1)
    }

    /// Returns how far the task has come after `ticks` further ticks of the runnable, at most those
    /// that are left.
    pub(crate) fn after(self, jobs: &[Job], ticks: u64) -> Progress
        requires take_time { TakeTime jobs.now }
        requires at { (done : ℕ) × IsAtRunnable jobs.now done self }
        requires ticks { ticks ≤ self.left }
        ensures task { result.task ≡ self.task }
        ensures priority { result.priority ≡ self.priority }
        ensures further { (done : ℕ) → IsAtRunnable jobs.now done self
            → HasComeTo jobs.now (done + ticks) result }
    {
        if ticks < self.left {
            return Progress {
                left: self.left - ticks,
                ..self
            };
        }
        self.after_runnable(jobs)
    }
}
