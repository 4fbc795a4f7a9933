ghost use Rattle.std.specs.Prelude.{◌≡◌, ◌<◌, length, IfOk};
ghost use Rattle.cl_tight.specs.{Promises.AreSafeTightFindings, TightFindings.tight_findings_of};
ghost use Rattle.cl_engine.specs.{Content.Model, Done.IsDone};
ghost use Rattle.cl_top.specs.{Commands.{IsOutcomeOf, TakesStepsOf, Why.IsWhyOf}, Subject.names_asked};

use crate::Command;
use crate::commands::witness::unknown;
use crate::subject::{What, number_of};
use cl_engine::Outcome;
use cl_model::{Name, ValidModel};
use cl_text::Text;
use cl_tight::{TightFindings, tighten};
use cl_time::{NoMemory, Steps};
use cl_why::{why_chain, why_requirement, why_task};
use std::alloc::Global;
use std::sync::ledger::Ledger;

/// Finds the outcome of `why` for a valid model: why what is asked of is answered or bounded as it
/// is, or that the model has nothing of that name. Counts at most one step for each task.
#[tactic(auto, unfolding(crate::specs::Commands::command_meaning))]
pub(super) fn reasoned<L: Ledger>(
    alloc: Global,
    model: &ValidModel,
    what: What,
    name: &Name,
    steps: &mut Steps<L>,
) -> Result<Outcome, NoMemory>
    ensures outcome { IfOk result (IsOutcomeOf (Command.Why what name.now) (Model model.now)) }
    ensures steps { TakesStepsOf (Command.Why what name.now) (Model model.now) steps.old steps.new }
{
    match number_of(model, what, name) {
        Some(number) => {
            let findings = tighten(alloc, model, steps)?;
            printed(alloc, model, &findings, what, number)
        }
        None => unknown(alloc, what, name),
    }
}

/// Makes the outcome of what is asked of, given by its number.
fn printed(
    alloc: Global,
    model: &ValidModel,
    findings: &TightFindings,
    what: What,
    number: usize,
) -> Result<Outcome, NoMemory>
    requires number { number < length (names_asked what model.now) }
    requires findings { findings.now ≡ tight_findings_of model.now }
    requires safe { AreSafeTightFindings model.now findings.now }
    ensures { IfOk result (IsDone (IsWhyOf what model.now number)) }
{
    let text = why_of(alloc, model, findings, what, number)?;
    Ok(Outcome::done(text))
}

/// Builds the text of what is asked of, given by its number.
fn why_of(
    alloc: Global,
    model: &ValidModel,
    findings: &TightFindings,
    what: What,
    number: usize,
) -> Result<Text, NoMemory>
    requires number { number < length (names_asked what model.now) }
    requires findings { findings.now ≡ tight_findings_of model.now }
    requires safe { AreSafeTightFindings model.now findings.now }
    ensures { IfOk result (IsWhyOf what model.now number) }
{
    match what {
        What::Response => {
            prove!(number < model.tasks() as usize);
            why_task(alloc, model, findings, number as u32)
        }
        What::Bound(kind) => {
            prove!(number < model.chains() as usize);
            why_chain(alloc, model, findings, number as u32, kind)
        }
        What::Requirement => why_requirement(alloc, model, findings, number),
    }
}
