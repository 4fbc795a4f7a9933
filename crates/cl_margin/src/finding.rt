//! The margins of a model.
ghost use Rattle.std.specs.Prelude.{◌≡◌, ℕ, ◌<◌, length, IfOk};
ghost use Rattle.cl_tight.specs.TightFindings.{tight_findings_of};
ghost use Rattle.cl_margin.specs.{declared.whose.Whose.TheVariants.{EveryTask, OneTask}, Margins.{margin_at, AreMargins, SmallerKeepMet}, Inner.Trials.IsStanding};

use crate::allowed::allowed_of;
use crate::answer::Margins;
use crate::searching::margin_of;
use crate::standing::Standing;
use crate::trial::Trial;
use crate::whose::Whose;
use cl_model::{List, ValidModel};
use cl_resp::from_the_top;
use cl_tight::TightFindings;
use cl_time::{NoMemory, Steps};
use std::alloc::Global;
use std::sync::ledger::Ledger;

/// Finds how far the greatest execution times of a model may grow, of all its tasks and of each
/// alone, until something breaks that is met now, by its tight findings: the greatest percentage,
/// from 100 to 1,000, at which the model is valid, no task is late that isn't now, and each
/// requirement is met that is now. With each smaller percentage from 100 on all that holds, too. And
/// it finds what breaks first at one percent more.
///
/// Each answer for a task that it asks counts a step. `NoMemory` comes where there is no memory for
/// a copy of the model, for what is found of it or for a list of the tasks above one; it leaves
/// nothing.
pub fn margins<L: Ledger>(
    alloc: Global,
    model: &ValidModel,
    found: &TightFindings,
    steps: &mut Steps<L>,
) -> Result<Margins, NoMemory>
    requires { found.now ≡ tight_findings_of model.now }
    ensures margins { IfOk result (AreMargins model.now) }
    ensures all { IfOk result (λ margins. SmallerKeepMet model.now EveryTask margins.all.percent) }
    ensures each { IfOk result (λ margins. (task : ℕ) → task < length model.now.tasks
        → SmallerKeepMet model.now (OneTask task) (margin_at margins.tasks task).percent) }
{
    let order = from_the_top(alloc, model)?;
    let allowed = allowed_of(alloc, model, found.verdicts.as_slice())?;
    let standing = Standing {
        model,
        found,
        order: order.as_slice(),
        allowed: allowed.as_slice(),
    };
    find_all(alloc, &standing, steps)
}

/// Finds the margins of a model.
fn find_all<L: Ledger>(
    alloc: Global,
    standing: &Standing<'_>,
    steps: &mut Steps<L>,
) -> Result<Margins, NoMemory>
    requires { IsStanding standing.now.model.now standing.now.found.now standing.now.order.now standing.now.allowed.now }
    ensures { IfOk result (AreMargins standing.now.model.now) }
{
    let trial = Trial::begin(alloc, standing)?;
    let found = margin_of(alloc, standing, Whose::EveryTask, trial, steps)?;
    let all = found.margin;
    let mut trial = found.trial;
    let mut tasks = List::with_room(alloc, standing.model.tasks() as usize)?;
    for task in 0..standing.model.tasks() {
        let found = margin_of(alloc, standing, Whose::OneTask { task }, trial, steps)?;
        tasks.push(found.margin)?;
        trial = found.trial;
    }
    Ok(Margins { all, tasks })
}
