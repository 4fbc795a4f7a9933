//! The best cuts of chains. Times are in ticks.
ghost use Rattle.std.specs.Prelude.{◌≡◌, ◌-◌, ◌<◌, ◌≤◌, length, IfOk};
ghost use Rattle.cl_model.specs.{declared.model.SystemModel.SystemModel, Validity.IsValid};
ghost use Rattle.cl_runs.specs.SystemOf.{system_of};
ghost use Rattle.cl_bound.specs.Answers.{answers_of};
ghost use Rattle.cl_analyse.specs.{ChainAnswers.chain_answers_of, Findings.AreFindings};
ghost use Rattle.cl_cut.specs.{Cuts.{IsBestCut, IsBestCutFrom}, CutAnswers.{late_task_of, IsCutAnswer, IsSafeAnswer, IsNoWorseAnswer, AreCutAnswers, AreSafeAnswers, AreNoWorseAnswers}, Inner.Rears.{AreSettledGroups, AreRears, CostSome}};

use crate::answer::CutAnswer;
use crate::rears::{Rear, best_from};
use crate::values::values_from;
use cl_analyse::{ChainAnswer, Findings};
use cl_bound::TaskAnswer;
use cl_model::{Group, List, ValidModel};
use cl_time::{NoMemory, Steps};
use std::alloc::Global;
use std::sync::ledger::Ledger;

/// Finds the first late task along the steps of a chain, from the answers for all chains. There is
/// none exactly where no task of the chain is late.
pub(crate) fn late_task(found: &[ChainAnswer], chain: u32) -> Option<u32>
    requires { chain < length found.now }
    ensures { (model : SystemModel) → found.now ≡ chain_answers_of model
        → result ≡ late_task_of model chain }
{
    match found[chain as usize] {
        ChainAnswer::Late { task } => Some(task),
        ChainAnswer::Bounds(_) => None,
    }
}

/// Finds the best cut of the rear part that is one group longer than the longest of `rears`. These
/// are the best cuts of all shorter rear parts, the shortest first.
fn rear_from<L: Ledger>(
    alloc: Global,
    model: &ValidModel,
    groups: &[Group],
    rears: &[Rear],
    settled: &List<TaskAnswer>,
    steps: &mut Steps<L>,
) -> Result<Rear, NoMemory>
    requires valid { IsValid model.now }
    requires groups { AreSettledGroups model.now groups.now }
    requires fewer { length rears.now < length groups.now }
    requires costs { CostSome rears.now }
    requires rears { AreRears (system_of model.now) groups.now rears.now }
    requires answers { settled.now ≡ answers_of (system_of model.now) }
    ensures some { IfOk result (λ rear. 1 ≤ rear.cost) }
    ensures best { IfOk result (λ rear.
        IsBestCutFrom (system_of model.now) groups.now (length groups.now - 1 - length rears.now) rear.pieces rear.cost) }
{
    let first = groups.len() - 1 - rears.len();
    let values = values_from(alloc, model, groups, first, settled, steps)?;
    best_from(alloc, first as u32, values.as_slice(), rears)
}

/// Finds the best cut of the groups of a chain, from its last group to its first.
fn best_of<L: Ledger>(
    alloc: Global,
    model: &ValidModel,
    groups: &[Group],
    settled: &List<TaskAnswer>,
    steps: &mut Steps<L>,
) -> Result<Rear, NoMemory>
    requires valid { IsValid model.now }
    requires some { 0 < length groups.now }
    requires groups { AreSettledGroups model.now groups.now }
    requires answers { settled.now ≡ answers_of (system_of model.now) }
    ensures { IfOk result
        (λ best. IsBestCut (system_of model.now) groups.now best.pieces best.cost) }
{
    let mut rears = Vec::new(alloc);
    while rears.len() < groups.len() {
        let rear = rear_from(alloc, model, groups, rears.as_slice(), settled, steps)?;
        rears.push(rear)?;
    }
    let Some(best) = rears.pop() else {
        unreachable!();
    };
    Ok(best)
}

/// Finds the best cut of a chain of a valid model, from the findings of the model. Of all cuts into
/// consecutive pieces it is the one of the least cost and, among equals, the one whose list of
/// first groups comes first in dictionary order. A cut costs the sum of the values of its pieces,
/// less one tick for each piece after the first. The value of a piece is its exact reaction where
/// its tasks are all timed and periodic and its hyperperiod is within its own limit, and else the
/// bound on its reaction.
///
/// The cost is at least the reaction of each complete forward chain in each legal run, of any
/// length. It is at most the bound on the reaction of the chain, and at most its exact reaction
/// where it has one.
///
/// `CutAnswer::Late` comes exactly where a task of the chain is late, and names the first such task
/// along its steps. `NoMemory` comes where there is no memory for the values of the pieces or for
/// the answer; it leaves nothing. Each pair of a first and a last group is looked at once, and
/// nothing of the model is copied. At most two steps are counted for each group.
pub fn best_cut<L: Ledger>(
    alloc: Global,
    model: &ValidModel,
    findings: &Findings,
    chain: u32,
    steps: &mut Steps<L>,
) -> Result<CutAnswer, NoMemory>
    requires is_chain { chain < length model.now.chains }
    requires findings { AreFindings model.now findings.now }
    ensures cut { IfOk result (IsCutAnswer model.now chain) }
    ensures safe { IfOk result (IsSafeAnswer model.now chain) }
    ensures no_worse { IfOk result (IsNoWorseAnswer model.now chain) }
{
    let chains = model.chains();
    prove!(chain < chains);
    match late_task(findings.chains.as_slice(), chain) {
        Some(task) => Ok(CutAnswer::Late { task }),
        None => {
            let groups = model.groups(chain);
            let best = best_of(alloc, model, groups, &findings.tasks, steps)?;
            Ok(CutAnswer::Cut {
                bound: best.cost,
                pieces: best.pieces,
            })
        }
    }
}

/// Finds the best cuts of all chains of a valid model, in file order, from the findings of the
/// model. The answer for each chain is that of `best_cut`, with all that it promises.
///
/// `NoMemory` comes where there is no memory for the values of the pieces of a chain or for the
/// answers; it leaves nothing. At most two steps are counted for each group of each chain.
pub fn best_cuts<L: Ledger>(
    alloc: Global,
    model: &ValidModel,
    findings: &Findings,
    steps: &mut Steps<L>,
) -> Result<List<CutAnswer>, NoMemory>
    requires findings { AreFindings model.now findings.now }
    ensures cuts { IfOk result (AreCutAnswers model.now) }
    ensures safe { IfOk result (AreSafeAnswers model.now) }
    ensures no_worse { IfOk result (AreNoWorseAnswers model.now) }
{
    let mut answers = List::new(alloc);
    for chain in 0..model.chains() {
        answers.push(best_cut(alloc, model, findings, chain, steps)?)?;
    }
    Ok(answers)
}
