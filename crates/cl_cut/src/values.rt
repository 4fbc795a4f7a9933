//! The values of pieces of a chain. Times are in ticks.
ghost use Rattle.std.specs.Prelude.{◌≡◌, ◌<◌, length, IfOk};
ghost use Rattle.cl_runs.specs.SystemOf.{system_of};
ghost use Rattle.cl_bound.specs.Answers.{answers_of};
ghost use Rattle.cl_cut.specs.Inner.Rears.{AreSettledGroups, AreValuesFrom};

use cl_bound::{TaskAnswer, reaction_bounds};
use cl_exact::exact_reactions;
use cl_model::{Group, List, ValidModel};
use cl_time::{NoMemory, Steps};
use std::alloc::Global;
use std::sync::ledger::Ledger;

/// Finds the values of the pieces that begin with group `first` of a chain, the shortest piece
/// first: the exact reaction of a piece where it has one, and else the bound on its reaction.
/// Counts two steps.
pub(crate) fn values_from<L: Ledger>(
    alloc: Global,
    model: &ValidModel,
    groups: &[Group],
    first: usize,
    settled: &List<TaskAnswer>,
    steps: &mut Steps<L>,
) -> Result<Vec<u64>, NoMemory>
    requires first { first < length groups.now }
    requires groups { AreSettledGroups model.now groups.now }
    requires answers { settled.now ≡ answers_of (system_of model.now) }
    ensures { IfOk result
        (λ values. AreValuesFrom (system_of model.now) groups.now first values.items) }
{
    let rear = &groups[first..];
    let exact = exact_reactions(model, rear, steps);
    let bounds = reaction_bounds(model, rear, settled, steps);
    let mut values = Vec::new(alloc);
    for place in 0..rear.len() {
        values.push(exact[place].unwrap_or(bounds[place]))?;
    }
    Ok(values)
}
