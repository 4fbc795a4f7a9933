//! The runs by which a model is decided: each is made where it is first asked for, as long as their
//! executions aren't too many all in all. Times are in ticks.
ghost use Rattle.std.specs.Prelude.{◌≡◌, ◌<◌, true, length, IfOk, IfSome};
ghost use Rattle.cl_model.specs.Groups.{groups_at};
ghost use Rattle.cl_runs.specs.{Requirements.HasLength, SystemOf.system_of};
ghost use Rattle.cl_bound.specs.Answers.{answer_at, is_late, NoneIsLate};
ghost use Rattle.cl_tight.specs.TightAnswers.{tight_answers_of};
ghost use Rattle.cl_near.specs.Seen.{IsSeenOfTask};
ghost use Rattle.cl_verify.specs.KnownLengths.{AreRunsOf};

use crate::known_lengths::KnownLengths;
use cl_bound::TaskAnswer;
use cl_model::{List, RequirementKind, ValidModel};
use cl_near::{Budget, SeenOfTask, plan_chain, plan_task, seen_of_chain, seen_of_task};
use cl_tight::AccessWindows;
use cl_time::NoMemory;
use std::alloc::Global;

/// What the runs that were made so far have shown, and how many executions are left for others.
#[derive(Drop)]
pub struct Runs {
    pub(crate) budget: Budget,
    pub windows: AccessWindows,
    pub(crate) lengths: KnownLengths,
}

impl Runs {
    /// Starts with no run made, and all executions that may be made for one answer. `NoMemory` comes
    /// where there is no memory for it.
    pub fn new(alloc: Global, model: &ValidModel) -> Result<Runs, NoMemory>
        ensures { IfOk result (AreRunsOf model.now) }
    {
        Runs::within(alloc, model, Budget::new())
    }

    /// Starts with no run made, and so many executions that may be made. `NoMemory` comes where
    /// there is no memory for it.
    pub(crate) fn within(
        alloc: Global,
        model: &ValidModel,
        budget: Budget,
    ) -> Result<Runs, NoMemory>
        ensures { IfOk result (AreRunsOf model.now) }
    {
        Ok(Runs {
            budget,
            windows: AccessWindows::new(alloc, model)?,
            lengths: KnownLengths::new(alloc, model)?,
        })
    }

    /// Finds what the run of a late task shows of it.
    pub(crate) fn see_task(
        &mut self,
        alloc: Global,
        model: &ValidModel,
        task: u32,
    ) -> Result<SeenOfTask, NoMemory>
        requires task { task < length model.now.tasks }
        requires late { is_late (answer_at (tight_answers_of (system_of model.now)) task) ≡ true }
        requires runs { AreRunsOf model.now self.old }
        ensures seen { IfOk result (IsSeenOfTask model.now task) }
        ensures runs { AreRunsOf model.now self.new }
    {
        let plan = plan_task(alloc, model, task, None)?;
        seen_of_task(alloc, model, &plan, &mut self.budget)
    }

    /// Makes the runs of a chain that come near to its bound of a kind, and finds the length that
    /// they show.
    fn make(
        &mut self,
        alloc: Global,
        model: &ValidModel,
        answers: &List<TaskAnswer>,
        chain: u32,
        kind: RequirementKind,
        bound: u64,
    ) -> Result<Option<u64>, NoMemory>
        requires chain { chain < length model.now.chains }
        requires answers { answers.now ≡ tight_answers_of (system_of model.now) }
        requires not_late { NoneIsLate answers.now (groups_at model.now chain) }
        requires runs { AreRunsOf model.now self.old }
        ensures seen { IfOk result (λ seen. IfSome seen (HasLength model.now chain kind)) }
        ensures runs { AreRunsOf model.now self.new }
    {
        let groups = model.groups(chain);
        let timings = self.windows.timings(alloc, model, groups, answers)?;
        let plan = plan_chain(alloc, model, groups, timings.as_slice(), kind, bound)?;
        seen_of_chain(alloc, model, &plan, chain, kind, &mut self.budget)
    }

    /// Finds the length of a kind that the runs of a chain show which come near to its bound. For a
    /// chain and a kind they are made once. None of the chain's tasks is late.
    ///
    /// `NoMemory` comes where there is no memory for the runs; it leaves nothing.
    pub fn see_chain(
        &mut self,
        alloc: Global,
        model: &ValidModel,
        answers: &List<TaskAnswer>,
        chain: u32,
        kind: RequirementKind,
        bound: u64,
    ) -> Result<Option<u64>, NoMemory>
        requires chain { chain < length model.now.chains }
        requires answers { answers.now ≡ tight_answers_of (system_of model.now) }
        requires not_late { NoneIsLate answers.now (groups_at model.now chain) }
        requires runs { AreRunsOf model.now self.old }
        ensures seen { IfOk result (λ seen. IfSome seen (HasLength model.now chain kind)) }
        ensures runs { AreRunsOf model.now self.new }
    {
        if let Some(seen) = self.lengths.get(chain, kind) {
            return Ok(seen);
        }
        let seen = self.make(alloc, model, answers, chain, kind, bound)?;
        self.lengths.keep(chain, kind, seen);
        Ok(seen)
    }
}
