ghost use Rattle.std.specs.Prelude.{◌+◌, ◌≤◌, IfOk};
ghost use Rattle.cl_runs.specs.{Run.IsInForm, SystemOf.system_of};
ghost use Rattle.cl_engine.specs.{Content.ModelAnd, Done.IsDone};
ghost use Rattle.cl_observe.specs.Observed.{IsObservationOf};
ghost use Rattle.cl_top.specs.{Commands.{IsOutcomeOf, TakesStepsOf}, Meaning.task_steps};

use super::legal_run::refused;
use crate::Command;
use cl_engine::Outcome;
use cl_model::ValidModel;
use cl_observe::observe;
use cl_run_data::RunData;
use cl_tight::tighten;
use cl_time::{NoMemory, Steps};
use cl_trace::{TraceFault, read_trace};
use std::alloc::Global;
use std::sync::ledger::Ledger;

/// Finds the outcome of `observe` for a valid model and the text of a trace: what its run shows; or
/// the first bad line of the text. Counts at most one step for each task.
#[tactic(auto, unfolding(crate::specs::Commands::command_meaning))]
pub(super) fn observed<L: Ledger>(
    alloc: Global,
    model: &ValidModel,
    text: &[u8],
    steps: &mut Steps<L>,
) -> Result<Outcome, NoMemory>
    ensures outcome { IfOk result (IsOutcomeOf Command.Observe (ModelAnd model.now text.now)) }
    ensures steps { TakesStepsOf Command.Observe (ModelAnd model.now text.now) steps.old steps.new }
{
    match read_trace(alloc, model, text) {
        Ok(run) => shown(alloc, model, &run, steps),
        Err(TraceFault::BadLine { line }) => refused(alloc, line),
        Err(TraceFault::NoMemory) => Err(NoMemory),
    }
}

/// Makes the outcome of a run: what it shows.
fn shown<L: Ledger>(
    alloc: Global,
    model: &ValidModel,
    run: &RunData,
    steps: &mut Steps<L>,
) -> Result<Outcome, NoMemory>
    requires { IsInForm (system_of model.now) run.now }
    ensures outcome { IfOk result (IsDone (IsObservationOf model.now run.now)) }
    ensures steps { steps.new ≤ steps.old + task_steps model.now }
{
    let findings = tighten(alloc, model, steps)?;
    let text = observe(alloc, model, &findings, run)?;
    Ok(Outcome::done(text))
}
