ghost use Rattle.std.specs.Prelude.{◌≡◌, ◌+◌, ◌≤◌, length, Some, Ok, IfOk, IfSome};
ghost use Rattle.std.specs.Option.{option_copied};
ghost use Rattle.cl_model.specs.{Answers.IsFaultOf, Ranges.IsInRange, Validity.{refusals_of, refusal_of}};
ghost use Rattle.cl_explain.specs.Accepted.{accepted_text};
ghost use Rattle.cl_engine.specs.{Content.Bytes, Done.IsDone};
ghost use Rattle.cl_top.specs.Commands.{IsOutcomeOf, TakesStepsOf, Check.{IsAdvised, ValidityChecks}};

use crate::Command;
use cl_advice::put_advice;
use cl_engine::Outcome;
use cl_explain::accepted;
use cl_model::{Refusal, SystemModel, ValidModel};
use cl_read::{ReadFault, read_model};
use cl_time::{NoMemory, Steps};
use cl_valid::{ValidFault, validate};
use std::alloc::Global;
use std::sync::ledger::Ledger;

/// Finds the outcome of `check` for a model file of these bytes: what to mend where it is refused,
/// and else what to know of its model. Counts at most one step for each task of the model that is
/// read, and none where none is read.
#[tactic(auto, unfolding(crate::specs::Commands::command_meaning))]
pub(super) fn checked<L: Ledger>(
    alloc: Global,
    bytes: &[u8],
    steps: &mut Steps<L>,
) -> Result<Outcome, NoMemory>
    ensures outcome { IfOk result (IsOutcomeOf Command.Check (Bytes bytes.now)) }
    ensures steps { TakesStepsOf Command.Check (Bytes bytes.now) steps.old steps.new }
{
    match read_model(alloc, bytes) {
        Ok(model) => checked_model(alloc, bytes, model, steps),
        Err(ReadFault::Refused(refusal)) => advised(alloc, bytes, None, refusal),
        Err(ReadFault::NoMemory) => Err(NoMemory),
    }
}

/// Finds the outcome for a model that was read from these bytes.
fn checked_model<L: Ledger>(
    alloc: Global,
    bytes: &[u8],
    model: SystemModel,
    steps: &mut Steps<L>,
) -> Result<Outcome, NoMemory>
    requires { IsInRange model }
    ensures outcome { IfOk result
        (ValidityChecks bytes.now model (refusal_of model)) }
    ensures steps { steps.new ≤ steps.old + length model.tasks }
{
    match validate(alloc, model) {
        Ok(model) => accepted_model(alloc, &model, steps),
        Err((model, fault)) => refused_model(alloc, bytes, &model, fault),
    }
}

/// Finds the outcome for a model that was read and isn't valid: what to mend.
fn refused_model(
    alloc: Global,
    bytes: &[u8],
    model: &SystemModel,
    fault: ValidFault,
) -> Result<Outcome, NoMemory>
    requires in_range { IsInRange model.now }
    requires fault { IsFaultOf (refusals_of model.now) fault }
    ensures { IfOk result
        (ValidityChecks bytes.now model.now (refusal_of model.now)) }
{
    match fault {
        ValidFault::Refused(refusal) => advised(alloc, bytes, Some(model), refusal),
        ValidFault::NoMemory => Err(NoMemory),
    }
}

/// Finds the outcome for a valid model: what to know of it. Counts at most one step for each task.
fn accepted_model<L: Ledger>(
    alloc: Global,
    model: &ValidModel,
    steps: &mut Steps<L>,
) -> Result<Outcome, NoMemory>
    ensures outcome { IfOk result (IsDone (λ text. text ≡ accepted_text model.now)) }
    ensures steps { steps.new ≤ steps.old + length model.now.tasks }
{
    let text = accepted(alloc, model, steps)?;
    Ok(Outcome::done(text))
}

/// Makes the outcome of a refusal: its line, and behind it what to mend.
fn advised(
    alloc: Global,
    bytes: &[u8],
    model: Option<&SystemModel>,
    refusal: Refusal,
) -> Result<Outcome, NoMemory>
    requires { IfSome (option_copied model) IsInRange }
    ensures { IfOk result (IsAdvised bytes.now (option_copied model.entry) refusal) }
{
    let mut outcome = Outcome::model_refused(alloc, refusal)?;
    put_advice(&mut outcome.text, alloc, bytes, model, refusal)?;
    Ok(outcome)
}
