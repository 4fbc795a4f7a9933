ghost use Rattle.std.specs.Prelude.{IfOk};
ghost use Rattle.cl_engine.specs.Content.{Nothing};
ghost use Rattle.cl_top.specs.Commands.{IsOutcomeOf};

use crate::Command;
use cl_engine::Outcome;
use cl_help::{HELP, Topic, about};
use cl_text::Text;
use cl_time::NoMemory;
use std::alloc::Global;

/// The outcome of `help`: what the commands are.
#[tactic(auto, unfolding(crate::specs::Commands::command_meaning))]
pub(super) fn helped(alloc: Global) -> Result<Outcome, NoMemory>
    ensures { IfOk result (IsOutcomeOf Command.Help Nothing) }
{
    let mut text = Text::new(alloc);
    text.put(HELP.as_bytes())?;
    Ok(Outcome::done(text))
}

/// The outcome of `help COMMAND`: what one command is.
#[tactic(auto, unfolding(crate::specs::Commands::command_meaning))]
pub(super) fn helped_on(alloc: Global, topic: Topic) -> Result<Outcome, NoMemory>
    ensures { IfOk result (IsOutcomeOf (Command.HelpOn topic) Nothing) }
{
    let mut text = Text::new(alloc);
    text.put(about(topic).as_bytes())?;
    Ok(Outcome::done(text))
}

/// The outcome of `version`.
#[tactic(auto, unfolding(crate::specs::Commands::command_meaning))]
pub(super) fn named_version(alloc: Global) -> Result<Outcome, NoMemory>
    ensures { IfOk result (IsOutcomeOf Command.Version Nothing) }
{
    let mut text = Text::new(alloc);
    text.put(VERSION.as_bytes())?;
    Ok(Outcome::done(text))
}

/// The version of the program, with which CHANGELOG.md begins.
const VERSION: &str = "chainlat 1.0.0\n";
