//! How far the tasks of a core have come, and what the core does next. Times are in ticks.
ghost use Rattle.std.specs.Prelude.{◌≡◌, ℕ, ◌+◌, ◌-◌, ◌^◌, ◌<◌, ◌≤◌, ◌↔◌, ◌++◌, [], List, Option, Some, IsTrue, IfOk, length, map, replicate};
ghost use Rattle.std.specs.List.Sorted.{IsPermutation};
ghost use Rattle.cl_runs.specs.{TaskTiming.{System, Timing, timing_at, IsSound}, SystemOf.{range_of, system_of}, declared.job.JobTable.JobTable as Table};
ghost use Rattle.cl_sched.specs.{declared.progress.Progress.Progress, Progress.IsHolding, CoreProgress.{IsLawfulAt, AreOfCore, IsReached, IsScheduledUntil, IsUnderwayIn, IsUnderway, progress_at, AreFalling, AreWaiting, IsBestOf, AreSteadyAbove, IsChoice, IsNext}};
ghost use Rattle.cl_sched.specs.Inner.Executing.{IsInLists, IsUnbegun, HasJobLeft, HasExecuted};

use crate::progress::Progress;
use cl_model::{RunnableDef, ValidModel};
use cl_runs::{Job, JobTable};
use cl_time::NoMemory;
use std::alloc::Global;

/// The first tasks of a core that are known to wait: the next job of each is released at `until` or
/// later.
#[derive(Clone, Copy, PartialEq, Eq)]
pub struct Waiting {
    /// How many tasks of the core wait, from the first one on.
    pub count: usize,
    /// A tick before which none of these tasks is released.
    pub until: u64,
}

/// How far the tasks of a core have come at a tick.
#[derive(Drop)]
pub struct CoreProgress {
    /// The tick: all entries of the core before it are known.
    pub tick: u64,
    /// The index in `tasks` of the held task, which has begun a whole runnable and not finished it.
    pub held: Option<usize>,
    /// How far each task of the core has come, by falling priority.
    pub tasks: Vec<Progress>,
    /// The first of these tasks, which need not be looked at before the tick `waiting.until`.
    pub waiting: Waiting,
}

/// What a core does next: a task of it runs, or none where the core idles, until a tick.
#[derive(Clone, Copy, PartialEq, Eq)]
pub struct Next {
    /// The number of the task that runs, or none where the core idles.
    pub who: Option<u32>,
    /// The tick up to which it does so.
    pub until: u64,
    /// The index of that task among those of the core.
    pub chosen: Option<usize>,
    /// The first tasks, all in front of the chosen one, which need not be looked at before the tick
    /// `waiting.until`.
    pub waiting: Waiting,
}

/// The index of the task that goes on, if one does, the next event that may change that, and the
/// first tasks that wait.
#[derive(Clone, Copy)]
struct Choice {
    chosen: Option<usize>,
    event: u64,
    waiting: Waiting,
}

/// Returns how far a task has come at tick 0.
fn unbegun(model: &ValidModel, table: &JobTable, task: u32) -> Progress
    requires lawful { IsLawfulAt (system_of model.now) (timing_at (system_of model.now) task).core table.now }
    requires task { task < length model.now.tasks }
    ensures { IsUnbegun model.now table.now task result }
{
    let priority = model.task(task).priority;
    Progress::before(table.jobs_of(task), task, priority, 0)
}

/// Sorts tasks by falling priority.
fn put_from_the_top(tasks: &mut Vec<Progress>)
    ensures same { IsPermutation tasks.old.items tasks.new.items }
    ensures falling { AreFalling tasks.new.items }
{
    tasks.sort_unstable_by(|one, other| other.priority.cmp(&one.priority));
}

/// Lists how far each task of a core has come at tick 0, by falling priority.
fn all_unbegun(
    alloc: Global,
    model: &ValidModel,
    table: &JobTable,
    core: u32,
) -> Result<Vec<Progress>, NoMemory>
    requires lawful { IsLawfulAt (system_of model.now) core table.now }
    requires core { core < length model.now.cores }
    ensures of_core { IfOk result
        (λ tasks. AreOfCore (system_of model.now) table.now core [] tasks.items) }
    ensures falling { IfOk result (λ tasks. AreFalling tasks.items) }
{
    let mut tasks = Vec::new(alloc);
    for task in model.tasks_of_core(core) {
        tasks.push(unbegun(model, table, *task))?;
    }
    put_from_the_top(&mut tasks);
    Ok(tasks)
}

/// Checks whether a task with these runnables and jobs has begun a whole runnable and not finished
/// it.
fn is_holding(runnables: &[RunnableDef], jobs: &[Job], progress: Progress) -> bool
    requires { IsInLists runnables.now jobs.now progress }
    ensures { (task : Timing) → task.ranges ≡ map range_of runnables.now
        → IsTrue result ↔ IsHolding task jobs.now progress }
{
    match jobs.get(progress.job) {
        Some(job) => {
            runnables[progress.place].whole && progress.left < job.times.as_slice()[progress.place]
        }
        None => false,
    }
}

/// Returns the index where the condition holds, and `None` otherwise.
fn index_if(index: usize, holds: bool) -> Option<usize>
    ensures { (other : ℕ) → (result ≡ Some other) ↔ ((other ≡ index) × IsTrue holds) }
{
    if holds { Some(index) } else { None }
}

/// Returns that no task is known to wait.
fn none_waiting() -> Waiting
    ensures { result ≡ record { count = 0; until = 2 ^ 64 - 1 } }
{
    Waiting {
        count: 0,
        until: u64::MAX,
    }
}

/// Returns which of the first tasks are still known to wait at a tick: all of them before their
/// `until`, and none from then on.
fn waiting_at(waiting: Waiting, tick: u64) -> Waiting
    requires { tick < 2 ^ 64 - 1 }
    ensures still { tick < result.until }
    ensures same { (tasks : List Progress) → AreWaiting tasks waiting → AreWaiting tasks result }
{
    if tick < waiting.until {
        waiting
    } else {
        none_waiting()
    }
}

/// Finds the released task of highest priority, and when one of higher priority is released next,
/// at most `end`. The tasks are sorted by falling priority.
fn highest(tasks: &[Progress], waiting: Waiting, tick: u64, end: u64) -> Choice
    requires before { tick < end }
    requires falling { AreFalling tasks.now }
    requires waiting { AreWaiting tasks.now waiting }
    requires still { tick < waiting.until }
    ensures best { IsBestOf tasks.now (length tasks.now) tick result.chosen }
    ensures steady { AreSteadyAbove tasks.now result.chosen tick result.event }
    ensures waiting { AreWaiting tasks.now result.waiting }
    ensures behind { (index : ℕ) → result.chosen ≡ Some index → result.waiting.count ≤ index }
    ensures after { tick < result.event }
    ensures within { result.event ≤ end }
{
    let mut until = waiting.until;
    for count in waiting.count..tasks.len() {
        let release = tasks[count].release;
        if release <= tick {
            return Choice {
                chosen: Some(count),
                event: until.min(end),
                waiting: Waiting { count, until },
            };
        }
        until = until.min(release);
    }
    Choice {
        chosen: None,
        event: until.min(end),
        waiting: Waiting {
            count: tasks.len(),
            until,
        },
    }
}

impl CoreProgress {
    /// Creates the progress of a core at tick 0, before any job has executed. `NoMemory` comes
    /// where there is no memory for the list of tasks; it leaves nothing.
    pub fn begin(
        alloc: Global,
        model: &ValidModel,
        table: &JobTable,
        core: u32,
    ) -> Result<CoreProgress, NoMemory>
        requires lawful { IsLawfulAt (system_of model.now) core table.now }
        requires core { core < length model.now.cores }
        ensures { IfOk result (IsReached (system_of model.now) table.now core []) }
    {
        Ok(CoreProgress {
            tick: 0,
            held: None,
            tasks: all_unbegun(alloc, model, table, core)?,
            waiting: none_waiting(),
        })
    }

    /// Chooses the task that goes on, and finds the next event that may change that, at most `end`.
    fn choose(&self, end: u64) -> Choice
        requires before { self.now.tick < end }
        requires falling { AreFalling self.now.tasks.items }
        requires waiting { AreWaiting self.now.tasks.items self.now.waiting }
        ensures choice { IsChoice self.now.tasks.items self.now.held self.now.tick result.chosen result.event }
        ensures waiting { AreWaiting self.now.tasks.items result.waiting }
        ensures behind { (index : ℕ) → result.chosen ≡ Some index → result.waiting.count ≤ index }
        ensures after { self.now.tick < result.event }
        ensures within { result.event ≤ end }
    {
        match self.held {
            Some(held) => Choice {
                chosen: Some(held),
                event: end,
                waiting: none_waiting(),
            },
            None => {
                let waiting = waiting_at(self.waiting, self.tick);
                highest(self.tasks.as_slice(), waiting, self.tick, end)
            }
        }
    }

    /// Finds what the core does next, and up to which tick, at most `end`.
    fn following(&self, end: u64) -> Next
        requires before { self.now.tick < end }
        requires underway { IsUnderway self.now }
        ensures next { IsNext self.now result }
        ensures within { result.until ≤ end }
    {
        let choice = self.choose(end);
        let Some(index) = choice.chosen else {
            return Next {
                who: None,
                until: choice.event,
                chosen: None,
                waiting: choice.waiting,
            };
        };
        let task = self.tasks[index];
        Next {
            who: Some(task.task),
            until: self.tick + task.left.min(choice.event - self.tick),
            chosen: Some(index),
            waiting: choice.waiting,
        }
    }

    /// Finds what the core does next, and up to which tick at least, at most `end`. After any
    /// entries that lead to this progress, it is what is scheduled in each tick until then. Takes
    /// no memory.
    pub fn next(&self, end: u64) -> Next
        requires before { self.now.tick < end }
        requires underway { IsUnderway self.now }
        ensures next { IsNext self.now result }
        ensures within { result.until ≤ end }
        ensures scheduled { (system : System) (table : Table) (core : ℕ) (entries : List (Option ℕ))
            → IsSound system → IsLawfulAt system core table → IsReached system table core entries self.now
            → IsScheduledUntil system table core entries result.until result.who }
    {
        self.following(end)
    }

    /// Executes the runnable of the task at an index for `ticks` ticks, and notes whether the task
    /// is held after that.
    fn execute(&mut self, model: &ValidModel, table: &JobTable, index: usize, ticks: u64)
        requires lawful { IsLawfulAt (system_of model.now)
            (timing_at (system_of model.now) (progress_at self.old.tasks.items index).task).core
            table.now }
        requires index { index < length self.old.tasks.items }
        requires task { (progress_at self.old.tasks.items index).task < length model.now.tasks }
        requires left { HasJobLeft table.now (progress_at self.old.tasks.items index) }
        requires ticks { ticks ≤ (progress_at self.old.tasks.items index).left }
        ensures { HasExecuted (system_of model.now) table.now index ticks self.old self.new }
    {
        let task = self.tasks[index];
        let runnables = model.task(task.task).runnables.as_slice();
        let jobs = table.jobs_of(task.task);
        let moved = task.after(jobs, ticks);
        self.held = index_if(index, is_holding(runnables, jobs, moved));
        self.tasks[index] = moved;
    }

    /// Goes on to tick `until`, which may lie before `next.until`, with what the core does next.
    /// Takes no memory.
    #[inline(always)]
    pub fn advance(&mut self, model: &ValidModel, table: &JobTable, next: Next, until: u64)
        requires underway { IsUnderwayIn (system_of model.now) table.now self.old }
        requires next { IsNext self.old next }
        requires after { self.old.tick ≤ until }
        requires within { until ≤ next.until }
        ensures tick { self.new.tick ≡ until }
        ensures reached { (core : ℕ) (entries : List (Option ℕ))
            → IsReached (system_of model.now) table.now core entries self.old
            → IsReached (system_of model.now) table.now core
            (entries ++ replicate (until - self.old.tick) next.who) self.new }
    {
        if let Some(index) = next.chosen {
            self.execute(model, table, index, until - self.tick);
        }
        self.waiting = next.waiting;
        self.tick = until;
    }
}
