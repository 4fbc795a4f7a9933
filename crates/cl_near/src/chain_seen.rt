//! The length of a chain in runs that come near to its bound. Times are in ticks.
ghost use Rattle.std.specs.Prelude.{◌≡◌, ◌⊎◌, ◌-◌, ◌<◌, ◌≤◌, true, length, IfOk, IfSome};
ghost use Rattle.std.specs.Option.{option_map};
ghost use Rattle.cl_gen.specs.declared.limits.TheConstants.{MOST_RUN_TICKS};
ghost use Rattle.cl_model.specs.Groups.{groups_at};
ghost use Rattle.cl_runs.specs.{SystemOf.system_of, Requirements.{IsChainRequired, HasLength}, Run.IsInForm};
ghost use Rattle.cl_run_data.specs.Parts.{IsLawfulOn, HasNoOtherJobs, ShowsGroups};
ghost use Rattle.cl_chain.specs.{JobChains.job_chain_of, declared.job_chain.JobChain.JobChain};
ghost use Rattle.cl_near.specs.{Plans.IsPlanOfGroups, Inner.LongestChains.longest_of_length};

use crate::budget::Budget;
use crate::chain_plan::ChainPlan;
use crate::chain_wishes::{ChainWishes, Load};
use crate::run_size::{RunSize, size_of_run};
use cl_chain::{JobChain, Measured, measure_apart, measure_delay_apart};
use cl_check::tasks_apart;
use cl_gen::wished_table;
use cl_model::{LengthKind, RequirementKind, ValidModel};
use cl_run_data::RunData;
use cl_runs::JobTable;
use cl_sched::simulate_cores;
use cl_time::NoMemory;
use std::alloc::Global;

/// Makes the job table of a planned run on some cores.
pub(crate) fn planned_table(
    alloc: Global,
    model: &ValidModel,
    plan: &ChainPlan,
    cores: &[bool],
    load: Load,
) -> Result<JobTable, NoMemory>
    requires { plan.now.ticks ≤ MOST_RUN_TICKS }
    ensures lawful { IfOk result (IsLawfulOn (system_of model.now) cores.now) }
    ensures none { IfOk result (HasNoOtherJobs (system_of model.now) cores.now) }
{
    let mut wishes = ChainWishes { model, plan, load };
    wished_table(alloc, model, plan.ticks, cores, &mut wishes)
}

/// Returns the longest chain of a kind of length.
fn longest_of_length(measured: Measured, length: LengthKind) -> Option<JobChain>
    ensures { result ≡ longest_of_length length measured }
{
    match length {
        LengthKind::Reaction => measured.reaction,
        LengthKind::Age => measured.age,
        LengthKind::Reduced => measured.reduced,
    }
}

/// Finds the longest chain of a kind in a run, if it has a complete one.
fn longest_of_kind(
    alloc: Global,
    model: &ValidModel,
    run: &RunData,
    chain: u32,
    kind: RequirementKind,
) -> Result<Option<JobChain>, NoMemory>
    requires chain { chain < length model.now.chains }
    requires in_form { IsInForm (system_of model.now) run.now }
    requires shows { ShowsGroups (system_of model.now) (groups_at model.now chain) run.now }
    ensures { IfOk result (λ found. IfSome found
        (λ longest. IsChainRequired kind (system_of model.now) run.now (groups_at model.now chain) (job_chain_of longest))) }
{
    // So that it is known that the model is valid.
    let _valid = model.plain();
    let apart = tasks_apart(alloc, model, run)?;
    match kind {
        RequirementKind::Length(length) => {
            let measured = measure_apart(alloc, model, run, &apart, chain)?;
            Ok(longest_of_length(measured, length))
        }
        RequirementKind::Delay => measure_delay_apart(alloc, model, run, &apart, chain),
    }
}

/// Returns how long a chain lasts.
fn length_of(longest: Option<JobChain>) -> Option<u64>
    ensures { result ≡ option_map (λ (chain : JobChain). chain.to - chain.from) longest }
{
    match longest {
        Some(longest) => Some(longest.to.saturating_sub(longest.from)),
        None => None,
    }
}

/// Finds the length of a kind that a chain has in a planned run, if the run has a complete one.
fn length_under(
    alloc: Global,
    model: &ValidModel,
    plan: &ChainPlan,
    chain: u32,
    kind: RequirementKind,
    load: Load,
) -> Result<Option<u64>, NoMemory>
    requires chain { chain < length model.now.chains }
    requires plan { IsPlanOfGroups model.now (groups_at model.now chain) plan.now }
    requires short { plan.now.ticks ≤ MOST_RUN_TICKS }
    ensures { IfOk result (λ length. IfSome length (HasLength model.now chain kind)) }
{
    // So that it is known that the model is valid.
    let _valid = model.plain();
    let cores = plan.cores();
    let table = planned_table(alloc, model, plan, cores, load)?;
    let run = simulate_cores(alloc, model, table, cores)?;
    let longest = longest_of_kind(alloc, model, &run, chain, kind)?;
    Ok(length_of(longest))
}

/// The lengths of a chain in the two runs of its plan, if these have complete chains.
#[derive(Clone, Copy)]
pub(crate) struct BothLengths {
    planned: Option<u64>,
    heavy: Option<u64>,
}

impl BothLengths {
    /// Finds the lengths of a kind that a chain has in the two runs of its plan.
    pub(crate) fn of(
        alloc: Global,
        model: &ValidModel,
        plan: &ChainPlan,
        chain: u32,
        kind: RequirementKind,
    ) -> Result<BothLengths, NoMemory>
        requires chain { chain < length model.now.chains }
        requires plan { IsPlanOfGroups model.now (groups_at model.now chain) plan.now }
        requires short { plan.now.ticks ≤ MOST_RUN_TICKS }
        ensures planned { IfOk result (λ both. IfSome both.planned (HasLength model.now chain kind)) }
        ensures heavy { IfOk result (λ both. IfSome both.heavy (HasLength model.now chain kind)) }
    {
        Ok(BothLengths {
            planned: length_under(alloc, model, plan, chain, kind, Load::AsPlanned)?,
            heavy: length_under(alloc, model, plan, chain, kind, Load::Heavy)?,
        })
    }

    /// Returns the run that has the greater length: the first where they are alike.
    pub(crate) fn longer(self) -> Load {
        if self.heavy.unwrap_or(0) > self.planned.unwrap_or(0) {
            Load::Heavy
        } else {
            Load::AsPlanned
        }
    }

    /// Returns the length that the longer run has.
    fn greater(self) -> Option<u64>
        ensures { (result ≡ self.planned) ⊎ (result ≡ self.heavy) }
    {
        match self.longer() {
            Load::AsPlanned => self.planned,
            Load::Heavy => self.heavy,
        }
    }
}

/// Takes the two runs of a plan from the budget, if they are small enough and it holds them.
fn take_both(model: &ValidModel, plan: &ChainPlan, budget: &mut Budget) -> bool
    ensures { result ≡ true → plan.now.ticks ≤ MOST_RUN_TICKS }
{
    match size_of_run(model, plan.ticks, plan.cores()) {
        RunSize::Fits { count } => budget.take(count.saturating_mul(2)),
        RunSize::TooLong | RunSize::TooMany { .. } => false,
    }
}

/// Finds the greater length of a kind that a chain has in the two runs of its plan. It makes these
/// on the cores of the chain's tasks alone. `None` comes where no run is made, since it would be too
/// long or the budget doesn't hold both, or where neither has a complete chain.
///
/// `NoMemory` comes where there is no memory for the runs; it leaves nothing.
pub fn seen_of_chain(
    alloc: Global,
    model: &ValidModel,
    plan: &ChainPlan,
    chain: u32,
    kind: RequirementKind,
    budget: &mut Budget,
) -> Result<Option<u64>, NoMemory>
    requires chain { chain < length model.now.chains }
    requires plan { IsPlanOfGroups model.now (groups_at model.now chain) plan.now }
    ensures { IfOk result (λ seen. IfSome seen (HasLength model.now chain kind)) }
{
    if !take_both(model, plan, budget) {
        return Ok(None);
    }
    let lengths = BothLengths::of(alloc, model, plan, chain, kind)?;
    Ok(lengths.greater())
}
