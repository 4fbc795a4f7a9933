//! A model whose execution times have grown, and what is found of it. Times are in ticks.
ghost use Rattle.std.specs.Prelude.{◌≡◌, ◌==◌, ℕ, ◌+◌, ◌<◌, ◌≤◌, nat_lt, true, length, IfOk, IfSome, MatchOption};
ghost use Rattle.cl_model.specs.{Groups.IsGroupOf, Ranges.IsInRange};
ghost use Rattle.cl_runs.specs.{SystemOf.system_of, TaskTiming.timing_at};
ghost use Rattle.cl_resp.specs.{Question.tight_question_of, Response.busy_window};
ghost use Rattle.cl_bound.specs.Answers.{answer_at, is_late};
ghost use Rattle.cl_analyse.specs.ChainAnswers.{chain_answer_at};
ghost use Rattle.cl_tight.specs.{TightAnswers.tight_answers_of, TightFindings.tight_chain_answers_of};
ghost use Rattle.cl_scale.specs.declared.percent.TheConstants.{MOST_PERCENT};
ghost use Rattle.cl_margin.specs.{Grown.{grown_by, grown}, Inner.{Touched.IsOfModel, Trials.{AreCyclesOf, IsTrialOf, IsTrialAt, with_percent, IsStanding, with_answer, Forgets, is_touched_task, IsTimingAt}}, declared.whose.Whose.TheVariants.{EveryTask, OneTask}};

use crate::standing::Standing;
use crate::whose::{Whose, grown_greatest};
use arrayvec::ArrayVec;
use cl_analyse::ChainAnswer;
use cl_bound::TaskAnswer;
use cl_cycle::Cycle;
use cl_hop::GroupTiming;
use cl_model::{Group, List, MOST_STEPS, Step, ValidModel};
use cl_phase::tight_bounds;
use cl_resp::{respond_in_cycle, widest_window};
use cl_tight::AccessWindows;
use cl_time::{NoMemory, Steps};
use std::alloc::Global;
use std::sync::ledger::Ledger;

/// A model with other execution times, and what has been found of it so far. What doesn't depend on
/// the times that change is kept.
#[derive(Drop)]
pub(crate) struct Trial {
    model: ValidModel,
    /// The answer by phases for each task for which it has been found.
    answers: List<Option<TaskAnswer>>,
    windows: AccessWindows,
    /// The cycle of each task, which doesn't depend on times.
    cycles: List<Cycle>,
}

/// Finds the cycle of each task.
fn cycles_of(alloc: Global, model: &ValidModel) -> Result<List<Cycle>, NoMemory>
    ensures { IfOk result (AreCyclesOf (system_of model.now)) }
{
    let mut cycles = List::with_room(alloc, model.tasks() as usize)?;
    for task in 0..model.tasks() {
        cycles.push(Cycle::of(model, task))?;
    }
    Ok(cycles)
}

impl Trial {
    /// Begins with a model as it stands.
    pub(crate) fn begin(alloc: Global, standing: &Standing<'_>) -> Result<Trial, NoMemory>
        requires { IsStanding standing.now.model.now standing.now.found.now standing.now.order.now standing.now.allowed.now }
        ensures { IfOk result (IsTrialOf standing.now.model.now) }
    {
        let mut answers = List::with_room(alloc, standing.found.tasks.len())?;
        for answer in standing.found.tasks.as_slice() {
            answers.push(Some(*answer))?;
        }
        Ok(Trial {
            model: standing.model.copy(alloc)?,
            answers,
            windows: AccessWindows::new(alloc, standing.model)?,
            cycles: cycles_of(alloc, standing.model)?,
        })
    }

    /// Lets the times of a task be those at a percentage.
    fn with_task(self, standing: &Standing<'_>, task: u32, percent: u64) -> Trial
        requires standing { IsStanding standing.now.model.now standing.now.found.now standing.now.order.now standing.now.allowed.now }
        requires task { task < length standing.now.model.now.tasks }
        requires percent { percent ≤ MOST_PERCENT }
        requires in_range { (percents : ℕ → ℕ) × (self.model ≡ grown_by standing.now.model.now percents)
            × IsInRange (grown_by standing.now.model.now (with_percent percents task percent)) }
        ensures model { (percents : ℕ → ℕ) → self.model ≡ grown_by standing.now.model.now percents
            → result.model ≡ grown_by standing.now.model.now (with_percent percents task percent) }
        ensures answers { result.answers ≡ self.answers }
        ensures windows { result.windows ≡ self.windows }
        ensures cycles { result.cycles ≡ self.cycles }
    {
        let _valid = self.model.plain();
        let mut model = self.model;
        let runnables = standing.model.task(task).runnables.as_slice();
        for place in 0..runnables.len() {
            let runnable = &runnables[place];
            let step = Step {
                task,
                place: place as u32,
            };
            model = model.with_range(step, runnable.least, grown_greatest(runnable, percent));
        }
        Trial {
            model,
            answers: self.answers,
            windows: self.windows,
            cycles: self.cycles,
        }
    }

    /// Lets the times of all tasks be those at a percentage.
    fn with_tasks(self, standing: &Standing<'_>, percent: u64) -> Trial
        requires standing { IsStanding standing.now.model.now standing.now.found.now standing.now.order.now standing.now.allowed.now }
        requires percent { percent ≤ MOST_PERCENT }
        requires in_range { IsInRange (grown standing.now.model.now EveryTask percent) }
        requires grown { (now : ℕ) × (self.model ≡ grown standing.now.model.now EveryTask now) }
        ensures model { result.model ≡ grown standing.now.model.now EveryTask percent }
        ensures answers { result.answers ≡ self.answers }
        ensures windows { result.windows ≡ self.windows }
        ensures cycles { result.cycles ≡ self.cycles }
    {
        let _valid = self.model.plain();
        let mut trial = self;
        for task in 0..standing.model.tasks() {
            trial = trial.with_task(standing, task, percent);
        }
        trial
    }

    /// Forgets the answer and the responses of parts of a task.
    fn forget(&mut self, task: u32)
        requires { task < length self.old.answers }
        ensures { Forgets (λ other. other == task) self.old self.new }
    {
        *self.answers.item_mut(task as usize) = None;
        self.windows.forget_parts(task);
    }

    /// Forgets those of all tasks.
    fn forget_all(&mut self)
        requires { length self.old.answers ≡ length self.old.model.tasks }
        ensures { Forgets (λ task. nat_lt task (length self.old.model.tasks)) self.old self.new }
    {
        for task in 0..self.model.tasks() {
            self.forget(task);
        }
    }

    /// Forgets those of the tasks that may be answered otherwise as the times of one change.
    fn forget_touched(&mut self, standing: &Standing<'_>, grown: u32)
        requires standing { IsStanding standing.now.model.now standing.now.found.now standing.now.order.now standing.now.allowed.now }
        requires grown { grown < length standing.now.model.now.tasks }
        requires as_many { length self.old.answers ≡ length standing.now.model.now.tasks }
        ensures { Forgets (is_touched_task standing.now.model.now (OneTask grown)) self.old self.new }
    {
        let model = standing.model;
        let whose = Whose::OneTask { task: grown };
        for task in model.tasks_of_core(model.core_of(grown)) {
            if whose.touches(model, *task) {
                self.forget(*task);
            }
        }
    }

    /// Lets these times be those at a percentage, from 100 on. All others are as they stand.
    pub(crate) fn at(self, standing: &Standing<'_>, whose: Whose, percent: u64) -> Trial
        requires standing { IsStanding standing.now.model.now standing.now.found.now standing.now.order.now standing.now.allowed.now }
        requires whose { IsOfModel standing.now.model.now whose }
        requires percent { (100 ≤ percent) × (percent ≤ MOST_PERCENT) }
        requires in_range { IsInRange (grown standing.now.model.now whose percent) }
        requires trial { (now : ℕ) × IsTrialAt standing.now.model.now whose now self }
        ensures { IsTrialAt standing.now.model.now whose percent result }
    {
        let _valid = self.model.plain();
        match whose {
            Whose::EveryTask => {
                let mut trial = self.with_tasks(standing, percent);
                trial.forget_all();
                trial
            }
            Whose::OneTask { task } => {
                let mut trial = self.with_task(standing, task, percent);
                trial.forget_touched(standing, task);
                trial
            }
        }
    }

    /// Lets all be as it stands again.
    pub(crate) fn reset(self, standing: &Standing<'_>, whose: Whose) -> Trial
        requires standing { IsStanding standing.now.model.now standing.now.found.now standing.now.order.now standing.now.allowed.now }
        requires whose { IsOfModel standing.now.model.now whose }
        requires trial { (now : ℕ) × IsTrialAt standing.now.model.now whose now self }
        ensures { IsTrialOf standing.now.model.now result }
    {
        let mut trial = self.at(standing, whose, 100);
        for task in 0..standing.model.tasks() {
            trial.keep(task, &standing.found.tasks.as_slice()[task as usize]);
        }
        trial
    }

    /// Keeps the answer for a task.
    fn keep(&mut self, task: u32, answer: &TaskAnswer)
        requires { task < length self.old.answers }
        ensures { self.new ≡ with_answer self.old task answer.now }
    {
        *self.answers.item_mut(task as usize) = Some(*answer);
    }

    /// Asks for the answer by phases for a task, whose tight question has this window, if it has
    /// one.
    fn ask(&self, alloc: Global, task: u32, widest: Option<u64>) -> Result<TaskAnswer, NoMemory>
        requires trial { IsTrialOf self.now.model self.now }
        requires task { task < length self.now.model.tasks }
        requires widest { widest
            ≡ busy_window (tight_question_of (system_of self.now.model) (timing_at (system_of self.now.model) task)) }
        ensures { IfOk result (λ answer. answer ≡ answer_at (tight_answers_of (system_of self.now.model)) task) }
    {
        let cycle = &self.cycles.as_slice()[task as usize];
        match respond_in_cycle(alloc, &self.model, task, cycle, widest)? {
            Ok(settled) => Ok(TaskAnswer::Settled(settled)),
            Err(_) => Ok(TaskAnswer::Late),
        }
    }

    /// Finds the answer by phases for a task, whose tight question has this window, if it has one.
    fn answer_within(
        &mut self,
        alloc: Global,
        task: u32,
        widest: Option<u64>,
    ) -> Result<TaskAnswer, NoMemory>
        requires trial { IsTrialOf self.old.model self.old }
        requires task { task < length self.old.model.tasks }
        requires widest { widest
            ≡ busy_window (tight_question_of (system_of self.old.model) (timing_at (system_of self.old.model) task)) }
        ensures answer { IfOk result (λ answer. answer ≡ answer_at (tight_answers_of (system_of self.old.model)) task) }
        ensures trial { IsTrialOf self.old.model self.new }
    {
        let answer = self.ask(alloc, task, widest)?;
        self.keep(task, &answer);
        Ok(answer)
    }

    /// Returns the answer by phases for a task, if it has been found.
    fn found(&self, task: u32) -> Option<TaskAnswer>
        requires trial { IsTrialOf self.now.model self.now }
        requires task { task < length self.now.model.tasks }
        ensures { IfSome result (λ answer. answer ≡ answer_at (tight_answers_of (system_of self.now.model)) task) }
    {
        self.answers.as_slice()[task as usize]
    }

    /// Finds the answer by phases for a task. It counts a step where it hasn't been found before.
    fn answer<L: Ledger>(
        &mut self,
        alloc: Global,
        task: u32,
        steps: &mut Steps<L>,
    ) -> Result<TaskAnswer, NoMemory>
        requires trial { IsTrialOf self.old.model self.old }
        requires task { task < length self.old.model.tasks }
        ensures answer { IfOk result (λ answer. answer ≡ answer_at (tight_answers_of (system_of self.old.model)) task) }
        ensures trial { IsTrialOf self.old.model self.new }
        ensures steps { steps.new ≤ steps.old + 1 }
    {
        if let Some(answer) = self.found(task) {
            return Ok(answer);
        }
        steps.tick();
        let widest = widest_window(alloc, &self.model, task)?;
        self.answer_within(alloc, task, widest)
    }

    /// Checks whether a task is late by phases. It looks at phases only where the tight question
    /// has no window.
    pub(crate) fn is_late<L: Ledger>(
        &mut self,
        alloc: Global,
        task: u32,
        steps: &mut Steps<L>,
    ) -> Result<bool, NoMemory>
        requires trial { IsTrialOf self.old.model self.old }
        requires task { task < length self.old.model.tasks }
        ensures late { IfOk result (λ late. late ≡ is_late (answer_at (tight_answers_of (system_of self.old.model)) task)) }
        ensures trial { IsTrialOf self.old.model self.new }
        ensures steps { steps.new ≤ steps.old + 1 }
    {
        if let Some(answer) = self.found(task) {
            return Ok(answer.is_late());
        }
        steps.tick();
        let _valid = self.model.plain();
        match widest_window(alloc, &self.model, task)? {
            Some(_) => Ok(false),
            None => {
                let answer = self.answer_within(alloc, task, None)?;
                Ok(answer.is_late())
            }
        }
    }

    /// Puts together what tight bounds know of a group. There is nothing where its task is late.
    fn timing_of<L: Ledger>(
        &mut self,
        alloc: Global,
        group: Group,
        steps: &mut Steps<L>,
    ) -> Result<Option<GroupTiming>, NoMemory>
        requires trial { IsTrialOf self.old.model self.old }
        requires group { IsGroupOf self.old.model group }
        ensures timing { IfOk result (λ timing. MatchOption timing
            (is_late (answer_at (tight_answers_of (system_of self.old.model)) group.task) ≡ true)
            (IsTimingAt self.old.model group)) }
        ensures trial { IsTrialOf self.old.model self.new }
    {
        match self.answer(alloc, group.task, steps)? {
            TaskAnswer::Late => Ok(None),
            TaskAnswer::Settled(settled) => {
                let response = settled.response();
                let timing = self
                    .windows
                    .timing_within(alloc, &self.model, group, response)?;
                Ok(Some(timing))
            }
        }
    }

    /// Finds the tight bounds of a chain, or its first late task.
    pub(crate) fn bound<L: Ledger>(
        &mut self,
        alloc: Global,
        chain: u32,
        steps: &mut Steps<L>,
    ) -> Result<ChainAnswer, NoMemory>
        requires trial { IsTrialOf self.old.model self.old }
        requires chain { chain < length self.old.model.chains }
        ensures answer { IfOk result (λ answer. answer ≡ chain_answer_at (tight_chain_answers_of self.old.model) chain) }
        ensures trial { IsTrialOf self.old.model self.new }
    {
        let count = self.model.groups(chain).len() as u32;
        let mut timings: ArrayVec<GroupTiming, MOST_STEPS> = ArrayVec::new();
        for place in 0..count {
            let group = self.model.group(chain, place);
            match self.timing_of(alloc, group, steps)? {
                Some(timing) => timings.push(timing),
                None => return Ok(ChainAnswer::Late { task: group.task }),
            }
        }
        let groups = self.model.groups(chain);
        Ok(ChainAnswer::Bounds(tight_bounds(&self.model, groups, timings.as_slice())))
    }
}
