ghost use Rattle.std.specs.Prelude.{IfOk};
ghost use Rattle.cl_engine.specs.Content.{Model};
ghost use Rattle.cl_top.specs.Commands.{IsOutcomeOf, TakesStepsOf};

use crate::Command;
use cl_designs::margin_text;
use cl_engine::Outcome;
use cl_model::ValidModel;
use cl_time::{NoMemory, Steps};
use std::alloc::Global;
use std::sync::ledger::Ledger;

/// Finds the outcome of `margin` for a valid model: how far its greatest execution times may grow,
/// of all tasks and of each alone, and what breaks first.
#[tactic(auto, unfolding(crate::specs::Commands::command_meaning))]
pub(super) fn margined<L: Ledger>(
    alloc: Global,
    model: &ValidModel,
    steps: &mut Steps<L>,
) -> Result<Outcome, NoMemory>
    ensures outcome { IfOk result (IsOutcomeOf Command.Margin (Model model.now)) }
    ensures steps { TakesStepsOf Command.Margin (Model model.now) steps.old steps.new }
{
    let text = margin_text(alloc, model, steps)?;
    Ok(Outcome::done(text))
}
