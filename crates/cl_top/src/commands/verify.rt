ghost use Rattle.std.specs.Prelude.{◌≡◌, IfOk};
ghost use Rattle.cl_tight.specs.TightFindings.{tight_findings_of};
ghost use Rattle.cl_engine.specs.Content.{Model};
ghost use Rattle.cl_top.specs.{Verified.verify_status, Commands.{IsOutcomeOf, TakesStepsOf}};

use crate::Command;
use cl_engine::{Outcome, status};
use cl_model::ValidModel;
use cl_near::Budget;
use cl_tight::{TightFindings, is_verified, tighten};
use cl_time::{NoMemory, Steps};
use cl_verify::{decide, verify_text};
use std::alloc::Global;
use std::sync::ledger::Ledger;

/// Finds the outcome of `verify` for a valid model: the text says what is decided of each task and
/// each requirement, and the status whether all are met. Counts at most one step for each task.
#[tactic(auto, unfolding(crate::specs::Commands::command_meaning))]
pub(super) fn verified<L: Ledger>(
    alloc: Global,
    model: &ValidModel,
    steps: &mut Steps<L>,
) -> Result<Outcome, NoMemory>
    ensures outcome { IfOk result (IsOutcomeOf Command.Verify (Model model.now)) }
    ensures steps { TakesStepsOf Command.Verify (Model model.now) steps.old steps.new }
{
    let findings = tighten(alloc, model, steps)?;
    let decisions = decide(alloc, model, &findings, &mut Budget::new())?;
    Ok(Outcome {
        status: status_of(model, &findings),
        text: verify_text(alloc, model, &decisions)?,
    })
}

/// Returns the status of `verify` for a model with these findings: `DONE` where they verify it,
/// else `NOT_VERIFIED`.
fn status_of(model: &ValidModel, findings: &TightFindings) -> u8
    requires { findings.now ≡ tight_findings_of model.now }
    ensures { result ≡ verify_status model.now }
{
    if is_verified(model, findings) {
        status::DONE
    } else {
        status::NOT_VERIFIED
    }
}
