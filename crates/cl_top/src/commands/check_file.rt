ghost use Rattle.std.specs.Prelude.{◌≡◌, None, IfOk};
ghost use Rattle.cl_engine.specs.Content.{content_of, Fits};
ghost use Rattle.cl_top.specs.{Command.files_read, Commands.{IsOutcomeOf, TakesStepsOf, CheckFile.{FileChecks, IsFileChecked, no_title}}};
ghost use Rattle.cl_traces.specs.Titles.{is_titled_trace};

use super::check::checked;
use super::check_list::checked_list;
use super::check_trace::checked_trace;
use super::edit::bad_line;
use crate::Command;
use cl_edit::version_named;
use cl_engine::{Given, Outcome};
use cl_lists::put_no_title;
use cl_model::ValidModel;
use cl_time::{NoMemory, Steps};
use cl_traces::is_titled_trace;
use std::alloc::Global;
use std::sync::ledger::Ledger;

/// Finds the outcome of `check` with a second file: as `check` finds it of a first file that holds no
/// valid model, and else what to mend in the second, a list of edits or a trace. Counts the steps
/// of `check`, and none where the model is accepted.
#[tactic(auto, unfolding(crate::specs::Commands::command_meaning))]
pub(super) fn checked_file<L: Ledger>(
    alloc: Global,
    given: Given,
    steps: &mut Steps<L>,
) -> Result<Outcome, NoMemory>
    requires fits { Fits (files_read Command.CheckFile) (content_of given) }
    ensures outcome { IfOk result (IsOutcomeOf Command.CheckFile (content_of given)) }
    ensures steps { TakesStepsOf Command.CheckFile (content_of given) steps.old steps.new }
{
    match given.either() {
        Ok((model, text)) => checked_second(alloc, model, text.as_slice()),
        Err(bytes) => checked(alloc, bytes.as_slice(), steps),
    }
}

/// Finds the outcome for the second file of a valid model, by what its first line says.
fn checked_second(alloc: Global, model: ValidModel, text: &[u8]) -> Result<Outcome, NoMemory>
    ensures { IfOk result (IsFileChecked model text.now) }
{
    match version_named(alloc, text)? {
        Some(version) => checked_list(alloc, model, version, text),
        None => checked_other(alloc, &model, text),
    }
}

/// Finds the outcome for a second file that isn't titled as a list of edits.
fn checked_other(alloc: Global, model: &ValidModel, text: &[u8]) -> Result<Outcome, NoMemory>
    ensures { IfOk result (FileChecks None (is_titled_trace text.now) model.now text.now) }
{
    if is_titled_trace(text) {
        checked_trace(alloc, model, text)
    } else {
        untitled(alloc)
    }
}

/// Makes the outcome of a file that is titled neither as a list of edits nor as a trace.
fn untitled(alloc: Global) -> Result<Outcome, NoMemory>
    ensures { IfOk result (λ outcome. outcome ≡ no_title) }
{
    let mut outcome = bad_line(alloc, 1)?;
    put_no_title(&mut outcome.text)?;
    Ok(outcome)
}
