ghost use Rattle.std.specs.Prelude.{◌+◌, ◌*◌, ◌≤◌, length, IfOk};
ghost use Rattle.cl_report.specs.Survey.{IsSurveyOf};
ghost use Rattle.cl_engine.specs.{Done.IsDone, Content.Nothing};
ghost use Rattle.cl_top.specs.{Command.AsksForFew, Commands.{IsOutcomeOf, TakesStepsOf}};

use crate::Command;
use cl_analyse::analyse;
use cl_engine::Outcome;
use cl_gen::generate;
use cl_model::ValidModel;
use cl_report::survey_text;
use cl_time::{NoMemory, Steps};
use std::alloc::Global;
use std::sync::ledger::Ledger;

/// Finds the outcome of `survey`: the survey of the generated model. Counts at most one step for
/// each task and two for each chain.
#[tactic(auto, unfolding(crate::specs::Commands::command_meaning, crate::specs::Command::AsksForFew))]
pub(super) fn surveyed<L: Ledger>(
    alloc: Global,
    seed: u64,
    tasks: u64,
    steps: &mut Steps<L>,
) -> Result<Outcome, NoMemory>
    requires { AsksForFew (Command.Survey seed tasks) }
    ensures outcome { IfOk result (IsOutcomeOf (Command.Survey seed tasks) Nothing) }
    ensures steps { TakesStepsOf (Command.Survey seed tasks) Nothing steps.old steps.new }
{
    let model = generate(alloc, seed, tasks)?;
    match ValidModel::adopt(alloc, model) {
        Ok(model) => survey_of(alloc, &model, steps),
        Err((_, no_memory)) => Err(no_memory),
    }
}

/// Makes the survey of a valid model.
fn survey_of<L: Ledger>(
    alloc: Global,
    model: &ValidModel,
    steps: &mut Steps<L>,
) -> Result<Outcome, NoMemory>
    ensures outcome { IfOk result (IsDone (IsSurveyOf model.now)) }
    ensures steps { steps.new ≤ steps.old + (length model.now.tasks + 2 * length model.now.chains) }
{
    let findings = analyse(alloc, model, steps)?;
    let text = survey_text(alloc, model, &findings)?;
    Ok(Outcome::done(text))
}
