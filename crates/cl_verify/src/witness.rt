//! Runs to be written that come near to the response of a task or to a bound of a chain. Times are in
//! ticks.
ghost use Rattle.std.specs.Prelude.{◌≡◌, ◌<◌, length, IfOk};
ghost use Rattle.cl_model.specs.Groups.{groups_at};
ghost use Rattle.cl_runs.specs.SystemOf.{system_of};
ghost use Rattle.cl_bound.specs.Answers.{NoneIsLate};
ghost use Rattle.cl_tight.specs.TightAnswers.{tight_answers_of};
ghost use Rattle.cl_verify.specs.Witnesses.{settled_response, IsWitness};

use crate::deciding::limited_bound;
use cl_analyse::first_late;
use cl_bound::TaskAnswer;
use cl_model::{List, RequirementKind, ValidModel};
use cl_near::{RunSize, plan_chain, plan_task, size_of_whole_run};
use cl_phase::tight_bounds;
use cl_runs::JobTable;
use cl_tight::AccessWindows;
use cl_time::NoMemory;
use std::alloc::Global;

/// A run that is to be written.
#[derive(Drop)]
pub enum Witness {
    /// The table of its jobs.
    Table(JobTable),
    /// It would have so many ticks, more than `MOST_RUN_TICKS`.
    TooLong { ticks: u64 },
    /// So many executions of runnables are counted, more than `MOST_EXECUTIONS`.
    TooMany { count: u64 },
}

/// Makes the run of a task in which a job arrives in its worst window, from the answers by phases
/// for all tasks.
///
/// `NoMemory` comes where there is no memory for the run; it leaves nothing.
pub fn witness_of_task(
    alloc: Global,
    model: &ValidModel,
    answers: &List<TaskAnswer>,
    task: u32,
) -> Result<Witness, NoMemory>
    requires task { task < length model.now.tasks }
    requires answers { answers.now ≡ tight_answers_of (system_of model.now) }
    ensures { IfOk result (IsWitness model.now) }
{
    let plan = plan_task(
        alloc,
        model,
        task,
        response_of(&answers.as_slice()[task as usize]),
    )?;
    match size_of_whole_run(alloc, model, plan.ticks())? {
        RunSize::TooLong => Ok(Witness::TooLong {
            ticks: plan.ticks(),
        }),
        RunSize::TooMany { count } => Ok(Witness::TooMany { count }),
        RunSize::Fits { .. } => Ok(Witness::Table(cl_near::witness_of_task(alloc, model, &plan)?)),
    }
}

/// Returns the response of a task by its answer, or `None` where it is late.
pub fn response_of(answer: &TaskAnswer) -> Option<u64>
    ensures { result ≡ settled_response answer.now }
{
    match answer {
        TaskAnswer::Settled(settled) => Some(settled.response()),
        TaskAnswer::Late => None,
    }
}

/// Makes the run of a chain that comes near to its bound of a kind, from the answers by phases for
/// all tasks. Where a task of the chain is late it is the run of the first such.
///
/// `NoMemory` comes where there is no memory for the run; it leaves nothing.
pub fn witness_of_chain(
    alloc: Global,
    model: &ValidModel,
    answers: &List<TaskAnswer>,
    chain: u32,
    kind: RequirementKind,
) -> Result<Witness, NoMemory>
    requires chain { chain < length model.now.chains }
    requires answers { answers.now ≡ tight_answers_of (system_of model.now) }
    ensures { IfOk result (IsWitness model.now) }
{
    // So that it is known that the model is valid.
    let _valid = model.plain();
    match first_late(model, chain, answers) {
        Some(task) => witness_of_task(alloc, model, answers, task),
        None => witness_of_bounded(alloc, model, answers, chain, kind),
    }
}

/// Makes the run of a chain none of whose tasks is late.
fn witness_of_bounded(
    alloc: Global,
    model: &ValidModel,
    answers: &List<TaskAnswer>,
    chain: u32,
    kind: RequirementKind,
) -> Result<Witness, NoMemory>
    requires chain { chain < length model.now.chains }
    requires answers { answers.now ≡ tight_answers_of (system_of model.now) }
    requires not_late { NoneIsLate answers.now (groups_at model.now chain) }
    ensures { IfOk result (IsWitness model.now) }
{
    let groups = model.groups(chain);
    let timings = AccessWindows::new(alloc, model)?.timings(alloc, model, groups, answers)?;
    let bound = limited_bound(&tight_bounds(model, groups, timings.as_slice()), kind);
    let plan = plan_chain(alloc, model, groups, timings.as_slice(), kind, bound)?;
    match size_of_whole_run(alloc, model, plan.ticks())? {
        RunSize::TooLong => Ok(Witness::TooLong {
            ticks: plan.ticks(),
        }),
        RunSize::TooMany { count } => Ok(Witness::TooMany { count }),
        RunSize::Fits { .. } => Ok(Witness::Table(cl_near::witness_of_chain(
            alloc, model, &plan, chain, kind,
        )?)),
    }
}
