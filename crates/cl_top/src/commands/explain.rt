ghost use Rattle.std.specs.Prelude.{IfOk};
ghost use Rattle.cl_engine.specs.Content.{Model};
ghost use Rattle.cl_top.specs.Commands.{IsOutcomeOf, TakesStepsOf};

use crate::Command;
use cl_engine::Outcome;
use cl_explain::explain;
use cl_model::ValidModel;
use cl_time::{NoMemory, Steps};
use std::alloc::Global;
use std::sync::ledger::Ledger;

/// Finds the outcome of `explain` for a valid model: what its responses and its bounds are the sums
/// of. Counts at most one step for each task and one for each chain.
#[tactic(auto, unfolding(crate::specs::Commands::command_meaning))]
pub(super) fn explained<L: Ledger>(
    alloc: Global,
    model: &ValidModel,
    steps: &mut Steps<L>,
) -> Result<Outcome, NoMemory>
    ensures outcome { IfOk result (IsOutcomeOf Command.Explain (Model model.now)) }
    ensures steps { TakesStepsOf Command.Explain (Model model.now) steps.old steps.new }
{
    let text = explain(alloc, model, steps)?;
    Ok(Outcome::done(text))
}
