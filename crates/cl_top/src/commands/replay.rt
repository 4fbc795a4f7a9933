ghost use Rattle.std.specs.Prelude.{◌+◌, ◌*◌, ◌≤◌, length, IfOk};
ghost use Rattle.cl_runs.specs.{SystemOf.system_of, Legal.IsLegal};
ghost use Rattle.cl_engine.specs.Content.{ModelAnd};
ghost use Rattle.cl_top.specs.Commands.{IsOutcomeOf, TakesStepsOf, Replay.IsReplayed};

use super::legal_run::{LegalRun, legal_run};
use crate::Command;
use cl_analyse::analyse;
use cl_engine::Outcome;
use cl_model::ValidModel;
use cl_replay::replay;
use cl_run_data::RunData;
use cl_time::{NoMemory, Steps};
use std::alloc::Global;
use std::sync::ledger::Ledger;

/// Finds the outcome of `replay` for a valid model and the text of a trace: the replay of its run;
/// or the first bad line of the text; or the first rule that its run breaks. Counts at most one
/// step for each task and two for each chain.
#[tactic(auto, unfolding(crate::specs::Commands::command_meaning), using(crate::proofs::OfTrace::legal_answer, crate::proofs::OfTrace::stop_follows, crate::proofs::OfTrace::is_legal))]
pub(super) fn replayed<L: Ledger>(
    alloc: Global,
    model: &ValidModel,
    text: &[u8],
    steps: &mut Steps<L>,
) -> Result<Outcome, NoMemory>
    ensures outcome { IfOk result (IsOutcomeOf Command.Replay (ModelAnd model.now text.now)) }
    ensures steps { TakesStepsOf Command.Replay (ModelAnd model.now text.now) steps.old steps.new }
{
    match legal_run(alloc, model, text)? {
        LegalRun::Legal(run) => replay_legal(alloc, model, &run, steps),
        LegalRun::Stopped(outcome) => Ok(outcome),
    }
}

/// Makes the replay of a legal run.
fn replay_legal<L: Ledger>(
    alloc: Global,
    model: &ValidModel,
    run: &RunData,
    steps: &mut Steps<L>,
) -> Result<Outcome, NoMemory>
    requires { IsLegal (system_of model.now) run.now }
    ensures outcome { IfOk result (IsReplayed model.now run.now) }
    ensures steps { steps.new ≤ steps.old + (length model.now.tasks + 2 * length model.now.chains) }
{
    let findings = analyse(alloc, model, steps)?;
    let text = replay(alloc, model, &findings, run)?;
    Ok(Outcome::done(text))
}
