ghost use Rattle.std.specs.Prelude.{IfOk};
ghost use Rattle.cl_engine.specs.Content.{Model};
ghost use Rattle.cl_top.specs.Commands.{IsOutcomeOf, TakesStepsOf};

use crate::Command;
use cl_engine::Outcome;
use cl_model::ValidModel;
use cl_tight::tighten;
use cl_tighten::tight_report;
use cl_time::{NoMemory, Steps};
use std::alloc::Global;
use std::sync::ledger::Ledger;

/// Finds the outcome of `tighten` for a valid model: its report by tight bounds. Counts at most one
/// step for each task.
#[tactic(auto, unfolding(crate::specs::Commands::command_meaning))]
pub(super) fn tightened<L: Ledger>(
    alloc: Global,
    model: &ValidModel,
    steps: &mut Steps<L>,
) -> Result<Outcome, NoMemory>
    ensures outcome { IfOk result (IsOutcomeOf Command.Tighten (Model model.now)) }
    ensures steps { TakesStepsOf Command.Tighten (Model model.now) steps.old steps.new }
{
    let findings = tighten(alloc, model, steps)?;
    let text = tight_report(alloc, model, &findings)?;
    Ok(Outcome::done(text))
}
