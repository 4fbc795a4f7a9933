ghost use Rattle.std.specs.Prelude.{IfOk};
ghost use Rattle.cl_engine.specs.Content.{Model};
ghost use Rattle.cl_top.specs.Commands.{IsOutcomeOf, TakesStepsOf};

use crate::Command;
use cl_analyse::analyse;
use cl_engine::Outcome;
use cl_model::ValidModel;
use cl_report::report;
use cl_time::{NoMemory, Steps};
use std::alloc::Global;
use std::sync::ledger::Ledger;

/// Finds the outcome of `analyse` for a valid model: its report. Counts at most one step for each
/// task and two for each chain.
#[tactic(auto, unfolding(crate::specs::Commands::command_meaning))]
pub(super) fn analysed<L: Ledger>(
    alloc: Global,
    model: &ValidModel,
    steps: &mut Steps<L>,
) -> Result<Outcome, NoMemory>
    ensures outcome { IfOk result (IsOutcomeOf Command.Analyse (Model model.now)) }
    ensures steps { TakesStepsOf Command.Analyse (Model model.now) steps.old steps.new }
{
    let findings = analyse(alloc, model, steps)?;
    let text = report(alloc, model, &findings)?;
    Ok(Outcome::done(text))
}
