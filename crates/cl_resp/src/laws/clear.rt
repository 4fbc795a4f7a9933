//! The jobs of a legal run in windows that begin at clear moments, by what the run itself releases
//! there. Responses are the case in which each window holds the most that can be released.
ghost use Rattle.std.specs.Prelude.{ℕ, ◌+◌, ◌-◌, ◌<◌, ◌≤◌, length};
ghost use Rattle.cl_runs.specs.{TaskTiming.{System, timing_at, IsSound}, Table.job_at, Run.{Run, jobs_of, executed}, Legal.IsLegal, ExecutionTimes.greatest_execution};
ghost use Rattle.cl_resp.specs.{declared.question.Question.Question, Question.AsksEnough, Response.demand, Clear.{work_of_first, IsClear, IsBeginning, greatest_through, needed, FinishesBy, IsDoneBy}};

/// The window of a job begins somewhere, if the jobs before it are done at some clear moment up to
/// its release; and moment 0 is clear.
pub fn windows_begin()
    ensures first { (system : System) (run : Run) (task : ℕ) → IsClear system run task 0 }
    ensures there { (system : System) (run : Run) (task job moment : ℕ)
        → job < length (jobs_of run task)
        → moment ≤ (job_at (jobs_of run task) job).release
        → IsClear system run task moment
        → work_of_first run task job ≤ executed system run task moment
        → (start : ℕ) × IsBeginning system run task job start }
{}

/// A runnable of a job finishes by the end of a window that begins where that of the job does and
/// holds what is needed of it: the longest hold of a task below, the greatest times of the
/// runnables of the task up to this one, and those of the jobs above that are released in it.
pub fn runnables_finish_in_windows()
    ensures { (system : System) → IsSound system → (run : Run) → IsLegal system run
        → (task job place start width : ℕ) → place < length (timing_at system task).ranges
        → IsBeginning system run task job start → start + width ≤ run.table.ticks
        → needed system run task (greatest_through (timing_at system task) place) start width
        ≤ width
        → FinishesBy system run task job place (start + width) }
{}

/// A whole job is done, at a clear moment, by the end of a window that begins where its own does
/// and holds what is needed of it for all runnables of the task. A job that is done by a moment has
/// finished by then.
pub fn jobs_are_done_in_windows()
    ensures done { (system : System) → IsSound system → (run : Run) → IsLegal system run
        → (task job start width : ℕ) → task < length system.tasks
        → IsBeginning system run task job start → start + width ≤ run.table.ticks
        → needed system run task (greatest_execution (timing_at system task)) start width ≤ width
        → IsDoneBy system run task job (start + width) }
    ensures finished { (system : System) → IsSound system → (run : Run) → IsLegal system run
        → (task job latest : ℕ) → task < length system.tasks → job < length (jobs_of run task)
        → latest ≤ run.table.ticks → IsDoneBy system run task job latest
        → FinishesBy system run task job (length (timing_at system task).ranges - 1) latest }
{}

/// What is needed of a window for a whole job is at most the demand of each question that asks
/// enough of the task, wherever the window begins.
pub fn windows_need_at_most_the_demand()
    ensures { (system : System) → IsSound system → (run : Run) → IsLegal system run
        → (task : ℕ) → task < length system.tasks
        → (question : Question) → AsksEnough system (timing_at system task) question
        → (start width : ℕ)
        → needed system run task (greatest_execution (timing_at system task)) start width
        ≤ demand question width }
{}
