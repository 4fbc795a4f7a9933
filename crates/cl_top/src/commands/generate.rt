ghost use Rattle.std.specs.Prelude.{IfOk};
ghost use Rattle.cl_engine.specs.Content.{Nothing};
ghost use Rattle.cl_top.specs.{Command.AsksForFew, Commands.IsOutcomeOf};

use crate::Command;
use cl_engine::Outcome;
use cl_gen::generate;
use cl_time::NoMemory;
use cl_write::write_model;
use std::alloc::Global;

/// Finds the outcome of `generate`: a text that is read as the generated model.
#[tactic(auto, unfolding(crate::specs::Commands::command_meaning, crate::specs::Command::AsksForFew))]
pub(super) fn generated(alloc: Global, seed: u64, tasks: u64) -> Result<Outcome, NoMemory>
    requires { AsksForFew (Command.Generate seed tasks) }
    ensures { IfOk result (IsOutcomeOf (Command.Generate seed tasks) Nothing) }
{
    let model = generate(alloc, seed, tasks)?;
    let text = write_model(alloc, &model)?;
    Ok(Outcome::done(text))
}
