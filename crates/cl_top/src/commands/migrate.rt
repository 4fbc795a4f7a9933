ghost use Rattle.std.specs.Prelude.{IfOk};
ghost use Rattle.cl_engine.specs.Content.{Model};
ghost use Rattle.cl_top.specs.Commands.{IsOutcomeOf};

use crate::Command;
use cl_engine::Outcome;
use cl_model::ValidModel;
use cl_time::NoMemory;
use cl_write::write_model;
use std::alloc::Global;

/// Finds the outcome of `migrate` for a valid model: a text of the least version from 2 on that can
/// say the model, which is read as the model.
#[tactic(auto, unfolding(crate::specs::Commands::command_meaning))]
pub(super) fn migrated(alloc: Global, model: &ValidModel) -> Result<Outcome, NoMemory>
    ensures { IfOk result (IsOutcomeOf Command.Migrate (Model model.now)) }
{
    let text = write_model(alloc, model.plain())?;
    Ok(Outcome::done(text))
}
