//! The worst window of a task, and how many jobs are released in it. Times are in ticks, and moments
//! may lie before 0.
ghost use Rattle.std.specs.Prelude.{◌≡◌, ◌*◌, ◌^◌, ◌<◌, ◌≤◌, ◌-ℤ◌, length, IfOk};
ghost use Rattle.cl_model.specs.{declared.limits.TheConstants.{MOST_TICKS, MOST_RUNNABLES}, Validity.IsValid};
ghost use Rattle.cl_runs.specs.SystemOf.{system_of};
ghost use Rattle.cl_phase.specs.TightBounds.{ticks_or_none};
ghost use Rattle.cl_tight.specs.TightAnswers.{tight_answers_of};
ghost use Rattle.cl_why.specs.{Windows.{reach_of, jobs_in_window, time_in_window, sum_of_shares, time_past_window}, Inner.IsWindowOf};

use cl_bound::TaskAnswer;
use cl_cycle::{Cycle, arrivals_from, arrivals_of};
use cl_explain::is_above;
use cl_model::{List, ValidModel};
use cl_near::window_of_run;
use cl_resp::{WorstWindow, ask_tight};
use cl_stim::{AnyStimulus, Arrivals};
use cl_time::NoMemory;
use cl_verify::response_of;
use std::alloc::Global;

/// The worst window of a task as the run of the task has it.
#[derive(Drop)]
pub(crate) struct Window {
    pub(crate) task: u32,
    /// When its job arrives, and where it begins.
    pub(crate) worst: WorstWindow,
    /// Where it ends: where the job has finished or, of a late task, is to have finished.
    pub(crate) until: i64,
    /// How long a whole runnable of a task below may hold the core.
    pub(crate) block: u64,
    /// How long a job of the task itself takes.
    pub(crate) time: u64,
    /// The tasks in phase.
    pub(crate) cycle: Cycle,
}

/// Returns how long after its arrival the window of a job ends: the response or, of a late task, the
/// deadline.
fn reach_of(answer: &TaskAnswer, deadline: u64) -> u64
    ensures { result ≡ reach_of answer.now deadline }
{
    match answer {
        TaskAnswer::Settled(settled) => settled.response(),
        TaskAnswer::Late => deadline,
    }
}

impl Window {
    /// Finds the worst window of a task, given by its number, from the answers by phases for all
    /// tasks. `NoMemory` comes where there is no memory for a list of the tasks above; it leaves
    /// nothing.
    pub(crate) fn of(
        alloc: Global,
        model: &ValidModel,
        answers: &List<TaskAnswer>,
        task: u32,
    ) -> Result<Window, NoMemory>
        requires task { task < length model.now.tasks }
        requires answers { answers.now ≡ tight_answers_of (system_of model.now) }
        ensures { IfOk result (IsWindowOf model.now task) }
    {
        let answer = &answers.as_slice()[task as usize];
        let worst = window_of_run(alloc, model, task, response_of(answer))?;
        let question = ask_tight(alloc, model, task)?;
        Ok(Window {
            task,
            worst,
            until: worst.arrival + reach_of(answer, question.deadline) as i64,
            block: question.block,
            time: question.time,
            cycle: Cycle::of(model, task),
        })
    }

    /// Returns how many ticks it has.
    pub(crate) fn width(&self) -> u64
        ensures { result ≡ ticks_or_none (self.now.until -ℤ self.now.worst.start) }
    {
        // Wide, so that no difference of two moments is too far.
        (i128::from(self.until) - i128::from(self.worst.start)).max(0) as u64
    }

    /// Counts the jobs of the task `other` that are released in it at most.
    pub(crate) fn jobs(&self, model: &ValidModel, other: u32) -> u64
        requires window { IsWindowOf model.now self.now.task self.now }
        requires other { other < length model.now.tasks }
        ensures jobs { result ≡ jobs_in_window model.now self.now.task self.now.worst other }
        ensures valid { IsValid model.now }
    {
        // So that it is known that the model is valid.
        let _ = model.plain();
        let kind = model.stimulus_of(other);
        if !self.cycle.has(other) {
            return AnyStimulus::of(kind).most(self.width());
        }
        let jitter = model.jitter_of(other);
        let from = self.worst.start - jitter as i64;
        arrivals_from(&arrivals_of(kind), from, self.width() + jitter)
    }

    /// Computes how long these jobs take at most, which is little enough for more to be added.
    pub(crate) fn time_of_jobs(&self, model: &ValidModel, other: u32) -> u128
        requires window { IsWindowOf model.now self.now.task self.now }
        requires other { other < length model.now.tasks }
        ensures time { result ≡ time_in_window model.now self.now.task self.now.worst other }
        ensures small { result ≤ 2 ^ 64 * (MOST_RUNNABLES * MOST_TICKS) }
    {
        u128::from(self.jobs(model, other)) * u128::from(model.time_of(other))
    }

    /// Computes how many ticks are asked of it: for the block, for the task itself, and for the jobs
    /// of the tasks above.
    fn demand(&self, model: &ValidModel) -> u128
        requires { IsWindowOf model.now self.now.task self.now }
        ensures { result ≡ sum_of_shares model.now self.now.task self.now.worst }
    {
        let mut demand = u128::from(self.block) + u128::from(self.time);
        for other in 0..model.tasks() {
            if is_above(model, self.task, other) {
                demand += self.time_of_jobs(model, other);
            }
        }
        demand
    }

    /// Computes by how much more is asked of it than it has. This is 0 exactly where the task isn't
    /// late.
    pub(crate) fn over(&self, model: &ValidModel) -> u128
        requires { IsWindowOf model.now self.now.task self.now }
        ensures { result ≡ time_past_window model.now self.now.task self.now.worst }
    {
        self.demand(model).saturating_sub(u128::from(self.width()))
    }
}
