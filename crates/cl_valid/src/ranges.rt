//! Checks whether all counts and numbers of a model are in range.
ghost use Rattle.std.specs.Prelude.{◌≤◌, ◌↔◌, IsTrue, All, IfSome, length};
ghost use Rattle.cl_model.specs.Ranges.{IsTime, IsBurstCount, IsKindInRange, IsRunnableInRange, IsTaskInRange, IsChainInRange, IsCountInRange, IsInRange};

use cl_model::{
    ChainDef, LEAST_JOBS_OF_BURST, MOST_ACCESSES, MOST_CHAINS, MOST_CORES, MOST_HOPS,
    MOST_JOBS_OF_BURST, MOST_LABELS, MOST_PRIORITY, MOST_REQUIRED, MOST_REQUIREMENTS,
    MOST_RUNNABLES, MOST_STEPS, MOST_STIMULI, MOST_TASKS, MOST_TICKS, RequirementDef, RunnableDef,
    StimulusDef, StimulusKind, SystemModel, TaskDef,
};

/// Whether a time is from 1 tick to `MOST_TICKS`. It takes no memory.
pub fn is_time(ticks: u64) -> bool
    ensures { IsTrue result ↔ IsTime ticks }
{
    1 <= ticks && ticks <= MOST_TICKS
}

/// Whether a burst may have `count` jobs: from `LEAST_JOBS_OF_BURST` to `MOST_JOBS_OF_BURST`. It
/// takes no memory.
pub fn is_burst_count(count: u64) -> bool
    ensures { IsTrue result ↔ IsBurstCount count }
{
    LEAST_JOBS_OF_BURST <= count && count <= MOST_JOBS_OF_BURST
}

fn is_kind_in_range(kind: StimulusKind) -> bool
    ensures { IsTrue result ↔ IsKindInRange kind }
{
    match kind {
        StimulusKind::Periodic {
            period,
            offset,
            jitter,
        } => is_time(period) && offset <= MOST_TICKS && jitter <= MOST_TICKS,
        StimulusKind::Sporadic { least, greatest } => is_time(least) && is_time(greatest),
        StimulusKind::Burst {
            period,
            offset,
            count,
            distance,
        } => {
            is_time(period) && offset <= MOST_TICKS && is_burst_count(count) && is_time(distance)
        }
    }
}

/// Whether a deadline, where one is given, is from 1 tick to `MOST_TICKS`. It takes no memory.
pub fn is_deadline_in_range(deadline: Option<u64>) -> bool
    ensures { IsTrue result ↔ IfSome deadline IsTime }
{
    match deadline {
        Some(ticks) => is_time(ticks),
        None => true,
    }
}

fn is_runnable_in_range(runnable: &RunnableDef) -> bool
    ensures { IsTrue result ↔ IsRunnableInRange runnable.now }
{
    is_time(runnable.least)
        && is_time(runnable.greatest)
        && runnable.reads.len() <= MOST_ACCESSES
        && runnable.writes.len() <= MOST_ACCESSES
}

fn are_runnables_in_range(runnables: &[RunnableDef]) -> bool
    ensures { IsTrue result ↔ All IsRunnableInRange runnables.now }
{
    runnables
        .iter()
        .all(|runnable| is_runnable_in_range(runnable))
}

/// Whether the numbers of a task and of its runnables are in range, and their lists aren't too
/// long. It takes no memory.
pub fn is_task_in_range(task: &TaskDef) -> bool
    ensures { IsTrue result ↔ IsTaskInRange task.now }
{
    task.priority <= MOST_PRIORITY
        && is_deadline_in_range(task.deadline)
        && task.runnables.len() <= MOST_RUNNABLES
        && are_runnables_in_range(task.runnables.as_slice())
}

/// Whether a chain has at most `MOST_STEPS` runnables and at most `MOST_HOPS` labels. It takes no
/// memory.
pub fn is_chain_in_range(chain: &ChainDef) -> bool
    ensures { IsTrue result ↔ IsChainInRange chain.now }
{
    chain.runnables.len() <= MOST_STEPS && chain.labels.len() <= MOST_HOPS
}

fn is_count_in_range(model: &SystemModel) -> bool
    ensures { IsTrue result ↔ IsCountInRange model.now }
{
    model.cores.len() <= MOST_CORES
        && model.stimuli.len() <= MOST_STIMULI
        && model.labels.len() <= MOST_LABELS
        && model.tasks.len() <= MOST_TASKS
        && model.chains.len() <= MOST_CHAINS
        && model.requirements.len() <= MOST_REQUIREMENTS
}

fn are_stimuli_in_range(stimuli: &[StimulusDef]) -> bool
    ensures { IsTrue result ↔ All (λ s. IsKindInRange s.kind) stimuli.now }
{
    stimuli
        .iter()
        .all(|stimulus| is_kind_in_range(stimulus.kind))
}

fn are_tasks_in_range(tasks: &[TaskDef]) -> bool
    ensures { IsTrue result ↔ All IsTaskInRange tasks.now }
{
    tasks.iter().all(|task| is_task_in_range(task))
}

fn are_chains_in_range(chains: &[ChainDef]) -> bool
    ensures { IsTrue result ↔ All IsChainInRange chains.now }
{
    chains.iter().all(|chain| is_chain_in_range(chain))
}

fn are_requirements_in_range(requirements: &[RequirementDef]) -> bool
    ensures { IsTrue result ↔ All (λ r. r.most ≤ MOST_REQUIRED) requirements.now }
{
    requirements
        .iter()
        .all(|requirement| requirement.most <= MOST_REQUIRED)
}

/// Whether all counts and numbers of a model are in the ranges that a model file allows. It takes
/// no memory.
pub fn in_range(model: &SystemModel) -> bool
    ensures { IsTrue result ↔ IsInRange model.now }
{
    is_count_in_range(model)
        && are_stimuli_in_range(model.stimuli.as_slice())
        && are_tasks_in_range(model.tasks.as_slice())
        && are_chains_in_range(model.chains.as_slice())
        && are_requirements_in_range(model.requirements.as_slice())
}
