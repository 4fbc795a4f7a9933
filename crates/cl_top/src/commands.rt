//! The outcome of each command, once its files are open: one source file for each command.
ghost use Rattle.std.specs.Prelude.{IfOk};
ghost use Rattle.cl_engine.specs.Content.{content_of, Fits};
ghost use Rattle.cl_top.specs.{Command.{files_read, AsksForFew}, Commands.{commands, IsOutcomeOf, TakesStepsOf}};

mod analyse;
mod apply;
mod check;
mod check_file;
mod check_list;
mod check_trace;
mod cut;
mod draw;
mod edit;
mod explain;
mod generate;
mod headroom;
mod help;
mod legal_run;
mod margin;
mod migrate;
mod observe;
mod order;
mod replay;
mod simulate;
mod survey;
mod tighten;
mod verify;
mod why;
mod witness;

use crate::Command;
use crate::command::{files_read, read_command};
use analyse::analysed;
use apply::applied;
use check::checked;
use check_file::checked_file;
use cl_engine::{Files, Given, Outcome};
use cl_io::Words;
use cl_time::{NoMemory, Steps};
use cut::cut;
use draw::drawn;
use edit::edited;
use explain::explained;
use generate::generated;
use headroom::headroom;
use help::{helped, helped_on, named_version};
use margin::margined;
use migrate::migrated;
use observe::observed;
use order::ordered;
use replay::replayed;
use simulate::simulated;
use std::alloc::Global;
use std::sync::ledger::Ledger;
use survey::surveyed;
use tighten::tightened;
use verify::verified;
use why::reasoned;
use witness::witnessed;

impl cl_engine::Command for Command {
    ghost language = { commands };

    fn read(words: &Words) -> Option<Self> {
        read_command(words)
    }

    fn files(&self) -> Files {
        files_read(self)
    }

    fn answer<L: Ledger>(
        self,
        alloc: Global,
        given: Given,
        steps: &mut Steps<L>,
    ) -> Result<Outcome, NoMemory> {
        answered(alloc, self, given, steps)
    }
}

/// Finds the outcome of a command, by what its files hold.
#[tactic(auto, using(crate::proofs::Answers::none_taken))]
fn answered<L: Ledger>(
    alloc: Global,
    asked: Command,
    given: Given,
    steps: &mut Steps<L>,
) -> Result<Outcome, NoMemory>
    requires few { AsksForFew asked }
    requires fits { Fits (files_read asked) (content_of given) }
    ensures outcome { IfOk result (IsOutcomeOf asked (content_of given)) }
    ensures steps { TakesStepsOf asked (content_of given) steps.old steps.new }
{
    match asked {
        Command::Analyse => analysed(alloc, &given.model(), steps),
        Command::Migrate => migrated(alloc, &given.model()),
        Command::Cut => cut(alloc, &given.model(), steps),
        Command::Order => ordered(alloc, &given.model(), steps),
        Command::Headroom => headroom(alloc, &given.model(), steps),
        Command::Margin => margined(alloc, &given.model(), steps),
        Command::Tighten => tightened(alloc, &given.model(), steps),
        Command::Verify => verified(alloc, &given.model(), steps),
        Command::Explain => explained(alloc, &given.model(), steps),
        Command::Witness { what, name } => witnessed(alloc, &given.model(), what, &name, steps),
        Command::Why { what, name } => reasoned(alloc, &given.model(), what, &name, steps),
        Command::Simulate { ticks, seed } => simulated(alloc, &given.model(), ticks, seed),
        Command::Replay => {
            let (model, trace) = given.both();
            replayed(alloc, &model, trace.as_slice(), steps)
        }
        Command::Observe => {
            let (model, trace) = given.both();
            observed(alloc, &model, trace.as_slice(), steps)
        }
        Command::Draw { from, to } => {
            let (model, trace) = given.both();
            drawn(alloc, &model, trace.as_slice(), from, to)
        }
        Command::Edit => {
            let (model, edits) = given.both();
            edited(alloc, model, edits.as_slice(), steps)
        }
        Command::Apply => {
            let (model, edits) = given.both();
            applied(alloc, model, edits.as_slice())
        }
        Command::CheckFile => checked_file(alloc, given, steps),
        Command::Check => checked(alloc, given.bytes().as_slice(), steps),
        Command::Generate { seed, tasks } => generated(alloc, seed, tasks),
        Command::Survey { seed, tasks } => surveyed(alloc, seed, tasks, steps),
        Command::Help => helped(alloc),
        Command::HelpOn(topic) => helped_on(alloc, topic),
        Command::Version => named_version(alloc),
    }
}
