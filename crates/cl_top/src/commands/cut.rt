ghost use Rattle.std.specs.Prelude.{IfOk};
ghost use Rattle.cl_engine.specs.Content.{Model};
ghost use Rattle.cl_top.specs.Commands.{IsOutcomeOf, TakesStepsOf};

use crate::Command;
use cl_designs::cut_text;
use cl_engine::Outcome;
use cl_model::ValidModel;
use cl_time::{NoMemory, Steps};
use std::alloc::Global;
use std::sync::ledger::Ledger;

/// Finds the outcome of `cut` for a valid model: the best cuts of its chains.
#[tactic(auto, unfolding(crate::specs::Commands::command_meaning))]
pub(super) fn cut<L: Ledger>(
    alloc: Global,
    model: &ValidModel,
    steps: &mut Steps<L>,
) -> Result<Outcome, NoMemory>
    ensures outcome { IfOk result (IsOutcomeOf Command.Cut (Model model.now)) }
    ensures steps { TakesStepsOf Command.Cut (Model model.now) steps.old steps.new }
{
    let text = cut_text(alloc, model, steps)?;
    Ok(Outcome::done(text))
}
