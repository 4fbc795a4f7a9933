//! The findings of the chains of an edited model: the earlier ones where the question is the same,
//! and else new ones. Times are in ticks.
ghost use Rattle.std.specs.Prelude.{◌≡◌, ◌<◌, length, IsTrue, IfOk, OnOk};
ghost use Rattle.cl_model.specs.{ByNumber.chain_at, Groups.groups_at};
ghost use Rattle.cl_runs.specs.SystemOf.{system_of};
ghost use Rattle.cl_bound.specs.Answers.{answers_of};
ghost use Rattle.cl_analyse.specs.{ChainAnswers.{chain_answer_of, chain_answers_of}, Findings.AreFindings};
ghost use Rattle.cl_incr.specs.{Changed.IsChangedChain, Questions.chain_question, Inner.{Kept.{AreBothAsked, AreFoundOf, IsKeptChain}, Asked.{AsksOne, AsksChains}, Standing.{AreStanding, IsNotedGroup, StayGroups}, News.{HasBounds, AreNoted, IsNoted}}};

use crate::comparing::ask_the_same;
use crate::put::{FoundExact, chain_before};
use cl_analyse::{ChainAnswer, ExactAnswer, Findings, answer_chain, answer_exact};
use cl_bound::TaskAnswer;
use cl_model::{Group, List, ValidModel};
use cl_time::{NoMemory, Steps};
use std::alloc::Global;
use std::sync::ledger::Ledger;

/// The findings of a chain: its bounds and its exact lengths.
#[derive(Drop)]
struct ChainFindings {
    bounds: ChainAnswer,
    exact: ExactAnswer,
}

/// Returns the earlier findings of the old model's chain of the same name, if both chains have the
/// same question. There are none where no chain had the name, the question is changed, or a task of
/// one of the chains is late.
fn kept_findings(
    old: &ValidModel,
    findings: &Findings,
    new: &ValidModel,
    tasks: &List<TaskAnswer>,
    chain: u32,
) -> Option<ChainFindings>
    requires findings { AreFindings old.now findings.now }
    requires tasks { tasks.now ≡ answers_of (system_of new.now) }
    requires chain { chain < length new.now.chains }
    ensures { IsKeptChain old.now new.now chain result }
{
    let before = old.chain_named(&new.chain(chain).name)?;
    prove!(before < old.chains());
    if !ask_the_same(old, &findings.tasks, before, new, tasks, chain) {
        return None;
    }
    Some(ChainFindings {
        bounds: findings.chains.as_slice()[before as usize],
        exact: findings.exacts.as_slice()[before as usize].copy(),
    })
}

/// Finds the bounds and the exact lengths of a chain of the new model. Counts at most two steps,
/// and only where its question is changed.
fn find_chain<L: Ledger>(
    old: &ValidModel,
    findings: &Findings,
    new: &ValidModel,
    tasks: &List<TaskAnswer>,
    chain: u32,
    steps: &mut Steps<L>,
) -> ChainFindings
    requires findings { AreFindings old.now findings.now }
    requires tasks { tasks.now ≡ answers_of (system_of new.now) }
    requires chain { chain < length new.now.chains }
    ensures found { AreFoundOf new.now chain result }
    ensures steps { AsksOne (IsChangedChain old.now new.now chain) 2 steps.old steps.new }
{
    match kept_findings(old, findings, new, tasks, chain) {
        Some(kept) => kept,
        None => {
            let bounds = answer_chain(new, chain, tasks, steps);
            let exact = answer_exact(new, chain, &bounds, steps);
            ChainFindings { bounds, exact }
        }
    }
}

/// Whether a group has the places of another, and its task the number that is noted for the task of
/// that one.
fn group_stays(one: Group, standing: &[u32], other: Group) -> bool
    requires { other.task < length standing.now }
    ensures { IsTrue result → IsNotedGroup standing.now one other }
{
    one.first == other.first && one.last == other.last && standing[other.task as usize] == one.task
}

/// Whether a chain of the new model has the groups of one of the old model, and all their tasks
/// stand.
fn groups_stay(old: &ValidModel, was: u32, standing: &[u32], new: &ValidModel, chain: u32) -> bool
    requires was { was < length old.now.chains }
    requires chain { chain < length new.now.chains }
    requires standing { AreStanding old.now new.now standing.now }
    ensures { IsTrue result → StayGroups old.now new.now (groups_at old.now was) (groups_at new.now chain) }
{
    let count = new.group_count(chain);
    if old.group_count(was) != count {
        return false;
    }
    for place in 0..count {
        if !group_stays(old.group(was, place), standing, new.group(chain, place)) {
            return false;
        }
    }
    true
}

/// Whether a chain has bounds.
fn has_bounds(answer: ChainAnswer) -> bool
    ensures { IsTrue result → HasBounds answer }
{
    match answer {
        ChainAnswer::Bounds(_) => true,
        ChainAnswer::Late { .. } => false,
    }
}

/// Whether a chain of the new model surely has the question that one of the old model has, by which
/// tasks stand.
fn chain_stays(
    old: &ValidModel,
    findings: &Findings,
    was: u32,
    standing: &[u32],
    new: &ValidModel,
    chain: u32,
) -> bool
    requires findings { AreFindings old.now findings.now }
    requires standing { AreStanding old.now new.now standing.now }
    requires chain { chain < length new.now.chains }
    ensures known { IsTrue result → was < length old.now.chains }
    ensures asked { IsTrue result → AreBothAsked (chain_question old.now was) (chain_question new.now chain) }
{
    // both models are valid
    let _new = new.plain();
    if was >= old.chains() {
        return false;
    }
    has_bounds(findings.chains.as_slice()[was as usize])
        && groups_stay(old, was, standing, new, chain)
}

/// Finds the bounds of a chain of the new model. Its exact answer is that of the chain before, or a
/// new one is noted.
fn keep_or_find<L: Ledger>(
    old: &ValidModel,
    findings: &Findings,
    new: &ValidModel,
    tasks: &List<TaskAnswer>,
    standing: &[u32],
    chain: u32,
    noted: &mut Vec<FoundExact>,
    steps: &mut Steps<L>,
) -> Result<ChainAnswer, NoMemory>
    requires findings { AreFindings old.now findings.now }
    requires tasks { tasks.now ≡ answers_of (system_of new.now) }
    requires standing { AreStanding old.now new.now standing.now }
    requires chain { chain < length new.now.chains }
    ensures bounds { IfOk result (λ bounds. bounds ≡ chain_answer_of new.now (chain_at new.now chain)) }
    ensures noted { OnOk result (IsNoted old.now new.now findings.now.exacts chain noted.old.items noted.new.items) }
    ensures steps { AsksOne (IsChangedChain old.now new.now chain) 2 steps.old steps.new }
{
    // the old model is valid
    let _old = old.plain();
    let was = chain_before(old, new, chain);
    if chain_stays(old, findings, was, standing, new, chain) {
        return Ok(findings.chains.as_slice()[was as usize]);
    }
    let found = find_chain(old, findings, new, tasks, chain, steps);
    noted.push(FoundExact {
        chain,
        exact: found.exact,
    })?;
    Ok(found.bounds)
}

/// What is found of the chains of the new model.
#[derive(Drop)]
pub(crate) struct FoundChains {
    /// The bounds of each chain or its first late task.
    pub(crate) bounds: List<ChainAnswer>,
    /// The exact answers that aren't those of the chains before.
    pub(crate) noted: Vec<FoundExact>,
}

/// Finds the bounds and the exact lengths of all chains of the new model. Counts at most two steps
/// for each chain with a changed question.
pub(crate) fn find_chains<L: Ledger>(
    alloc: Global,
    old: &ValidModel,
    findings: &Findings,
    new: &ValidModel,
    tasks: &List<TaskAnswer>,
    standing: &[u32],
    steps: &mut Steps<L>,
) -> Result<FoundChains, NoMemory>
    requires findings { AreFindings old.now findings.now }
    requires tasks { tasks.now ≡ answers_of (system_of new.now) }
    requires standing { AreStanding old.now new.now standing.now }
    ensures bounds { IfOk result (λ found. found.bounds ≡ chain_answers_of new.now) }
    ensures noted { IfOk result
        (λ found. AreNoted old.now new.now findings.now.exacts (length new.now.chains) found.noted.items) }
    ensures steps { AsksChains old.now new.now (length new.now.chains) steps.old steps.new }
{
    let mut bounds = List::with_room(alloc, new.chains() as usize)?;
    let mut noted = Vec::new(alloc);
    for chain in 0..new.chains() {
        bounds.push(keep_or_find(
            old, findings, new, tasks, standing, chain, &mut noted, steps,
        )?)?;
    }
    Ok(FoundChains { bounds, noted })
}
