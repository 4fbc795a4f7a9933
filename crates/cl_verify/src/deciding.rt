//! Deciding a model, task by task and requirement by requirement. Times are in ticks.
ghost use Rattle.std.specs.Prelude.{◌≡◌, ℕ, ◌<◌, length, IfOk, IfSome};
ghost use Rattle.cl_model.specs.{declared.model.SystemModel.SystemModel, Validity.IsValid, ByNumber.requirement_at};
ghost use Rattle.cl_runs.specs.Requirements.{required_chain, HasLength};
ghost use Rattle.cl_bound.specs.Answers.{answer_at};
ghost use Rattle.cl_analyse.specs.{declared.findings.Verdict.TheVariants.Unshown, Verdicts.{limited_bound, verdict_at}};
ghost use Rattle.cl_tight.specs.{Promises.AreSafeTightFindings, TightFindings.tight_findings_of};
ghost use Rattle.cl_near.specs.Seen.{IsSeenOfTask};
ghost use Rattle.cl_verify.specs.{Decisions.{IsDecisionOnLate, IsDecisionOnTask, IsDecisionByRuns, IsDecisionOn, tight_bound, AreTaskDecisions, AreRequirementDecisions, AreDecisionsOf}, KnownLengths.AreRunsOf};

use crate::decision::{Decision, Decisions, TaskDecision};
use crate::runs::Runs;
use cl_analyse::{ChainAnswer, Verdict};
use cl_bound::TaskAnswer;
use cl_hop::Bounds;
use cl_model::{LengthKind, List, RequirementDef, RequirementKind, ValidModel};
use cl_near::{Budget, SeenOfTask};
use cl_tight::TightFindings;
use cl_time::NoMemory;
use std::alloc::Global;

/// Decides each task and each requirement of a model, by its tight findings and by runs that come
/// near to what is found.
///
/// A task is met exactly where it isn't late by phases, and a requirement exactly where its bound is
/// at most what it requires. What is broken is so in a legal run, and what is seen is so in one. A
/// requirement is always broken where its bound is exact and too great. Runs are made in file order,
/// those of tasks first, and for one chain and kind once; all in all they have at most as many
/// executions of runnables as `budget` has left, from which they are taken.
///
/// `NoMemory` comes where there is no memory for the decisions or for a run; it leaves nothing.
pub fn decide(
    alloc: Global,
    model: &ValidModel,
    findings: &TightFindings,
    budget: &mut Budget,
) -> Result<Decisions, NoMemory>
    requires findings { findings.now ≡ tight_findings_of model.now }
    requires safe { AreSafeTightFindings model.now findings.now }
    ensures { IfOk result (AreDecisionsOf model.now) }
{
    let mut runs = Runs::within(alloc, model, *budget)?;
    let decisions = Decisions {
        tasks: decide_tasks(alloc, model, findings, &mut runs)?,
        requirements: decide_requirements(alloc, model, findings, &mut runs)?,
    };
    *budget = runs.budget;
    Ok(decisions)
}

/// Decides all tasks, in file order.
fn decide_tasks(
    alloc: Global,
    model: &ValidModel,
    findings: &TightFindings,
    runs: &mut Runs,
) -> Result<List<TaskDecision>, NoMemory>
    requires findings { findings.now ≡ tight_findings_of model.now }
    requires runs { AreRunsOf model.now runs.old }
    ensures tasks { IfOk result (AreTaskDecisions model.now) }
    ensures runs { AreRunsOf model.now runs.new }
{
    let mut decisions = List::with_room(alloc, model.tasks() as usize)?;
    for task in 0..model.tasks() {
        decisions.push(decide_task(alloc, model, findings, runs, task)?)?;
    }
    Ok(decisions)
}

/// Decides a task, given by its number, by its answer and by a run that comes near to it. The
/// findings are those of the model.
///
/// `NoMemory` comes where there is no memory for the run; it leaves nothing.
pub fn decide_task(
    alloc: Global,
    model: &ValidModel,
    findings: &TightFindings,
    runs: &mut Runs,
    task: u32,
) -> Result<TaskDecision, NoMemory>
    requires findings { findings.now ≡ tight_findings_of model.now }
    requires task { task < length model.now.tasks }
    requires runs { AreRunsOf model.now runs.old }
    ensures decision { IfOk result (IsDecisionOnTask model.now task (answer_at (tight_findings_of model.now).tasks task)) }
    ensures runs { AreRunsOf model.now runs.new }
{
    match &findings.tasks.as_slice()[task as usize] {
        TaskAnswer::Settled(settled) => Ok(TaskDecision::Met {
            response: settled.response(),
        }),
        TaskAnswer::Late => Ok(decision_by(runs.see_task(alloc, model, task)?)),
    }
}

/// Returns what is decided of a late task by what its run shows.
fn decision_by(seen: SeenOfTask) -> TaskDecision
    ensures { (model : SystemModel) (task : ℕ) → IsSeenOfTask model task seen
        → IsDecisionOnLate model task result }
{
    match seen {
        SeenOfTask::Missed => TaskDecision::Broken,
        SeenOfTask::Response(response) => TaskDecision::Unshown {
            seen: Some(response),
        },
        SeenOfTask::Nothing => TaskDecision::Unshown { seen: None },
    }
}

/// Decides all requirements, in file order.
fn decide_requirements(
    alloc: Global,
    model: &ValidModel,
    findings: &TightFindings,
    runs: &mut Runs,
) -> Result<List<Decision>, NoMemory>
    requires findings { findings.now ≡ tight_findings_of model.now }
    requires safe { AreSafeTightFindings model.now findings.now }
    requires runs { AreRunsOf model.now runs.old }
    ensures { IfOk result (AreRequirementDecisions model.now) }
{
    let requirements = model.plain().requirements.len();
    let mut decisions = List::with_room(alloc, requirements)?;
    for place in 0..requirements {
        decisions.push(decide_requirement(alloc, model, findings, runs, place)?)?;
    }
    Ok(decisions)
}

/// Decides the requirement at a place in file order, by the verdict of its bound and by runs that
/// come near to that. The findings are those of the model.
///
/// `NoMemory` comes where there is no memory for the runs; it leaves nothing.
pub fn decide_requirement(
    alloc: Global,
    model: &ValidModel,
    findings: &TightFindings,
    runs: &mut Runs,
    place: usize,
) -> Result<Decision, NoMemory>
    requires findings { findings.now ≡ tight_findings_of model.now }
    requires safe { AreSafeTightFindings model.now findings.now }
    requires place { place < length model.now.requirements }
    requires runs { AreRunsOf model.now runs.old }
    ensures decision { IfOk result (IsDecisionOn model.now (requirement_at model.now place) (verdict_at (tight_findings_of model.now).verdicts place)) }
    ensures runs { AreRunsOf model.now runs.new }
{
    let requirement = &model.plain().requirements.as_slice()[place];
    let verdict = &findings.verdicts.as_slice()[place];
    match verdict {
        Verdict::Met { value } => Ok(Decision::Met { bound: *value }),
        Verdict::Broken { value } => Ok(Decision::Broken {
            bound: *value,
            seen: *value,
        }),
        Verdict::Unshown { .. } => decide_by_runs(alloc, model, findings, runs, requirement),
    }
}

/// Returns the bound on what a requirement of this kind limits.
pub fn limited_bound(bounds: &Bounds, kind: RequirementKind) -> u64
    ensures { result ≡ limited_bound kind bounds.now }
{
    match kind {
        RequirementKind::Length(LengthKind::Reaction) => bounds.reaction(),
        RequirementKind::Length(LengthKind::Age) => bounds.age(),
        RequirementKind::Length(LengthKind::Reduced) => bounds.reduced(),
        RequirementKind::Delay => bounds.delay(),
    }
}

/// Returns what is decided of a requirement that isn't met by its bound, by the length that runs
/// show, if they show one.
fn decision_by_length(requirement: &RequirementDef, bound: u64, seen: Option<u64>) -> Decision
    ensures { (model : SystemModel)
        → IfSome seen (HasLength model (required_chain model requirement.now) requirement.now.kind)
        → IsDecisionByRuns model requirement.now bound result }
{
    match seen {
        Some(length) => {
            if length > requirement.most {
                Decision::Broken {
                    bound,
                    seen: length,
                }
            } else {
                Decision::Unshown { bound, seen }
            }
        }
        None => Decision::Unshown { bound, seen: None },
    }
}

/// Decides a requirement whose bound shows nothing, by what runs show.
fn decide_by_runs(
    alloc: Global,
    model: &ValidModel,
    findings: &TightFindings,
    runs: &mut Runs,
    requirement: &RequirementDef,
) -> Result<Decision, NoMemory>
    requires valid { IsValid model.now }
    requires findings { findings.now ≡ tight_findings_of model.now }
    requires chain { required_chain model.now requirement.now < length model.now.chains }
    requires runs { AreRunsOf model.now runs.old }
    ensures decision { IfOk result (IsDecisionOn model.now requirement.now
        (Unshown (tight_bound model.now requirement.now))) }
    ensures runs { AreRunsOf model.now runs.new }
{
    let chain = model.chain_named(&requirement.chain).unwrap_or(0);
    match &findings.chains.as_slice()[chain as usize] {
        ChainAnswer::Late { task } => Ok(Decision::Late { task: *task }),
        ChainAnswer::Bounds(bounds) => {
            let bound = limited_bound(bounds, requirement.kind);
            let seen = runs.see_chain(
                alloc,
                model,
                &findings.tasks,
                chain,
                requirement.kind,
                bound,
            )?;
            Ok(decision_by_length(requirement, bound, seen))
        }
    }
}
