//! The ticks of each task of a run, in a list of its own. Times are in ticks.
ghost use Rattle.std.specs.Prelude.{◌+◌, ◌<◌, ◌≤◌, length, OnOk, IfOk};
ghost use Rattle.cl_runs.specs.{Run.{core_entries, IsInForm}, SystemOf.system_of};
ghost use Rattle.cl_check.specs.{Apart.StandApart, Inner.PutApart.{with_ticks, HasList, HasTicks, TakesTicks, AreApartUpTo}};

use cl_model::{List, ValidModel};
use cl_run_data::RunData;
use cl_runs::JobTable;
use cl_time::NoMemory;
use std::alloc::Global;

/// Appends the ticks of a task to its list, and idle ticks in front of them where the list ends
/// earlier.
fn append(apart: &mut RunData, task: u32, from: u64, to: u64) -> Result<(), NoMemory>
    requires is_task { task < length apart.old.entries }
    requires after { length (core_entries apart.old task) ≤ from }
    requires ahead { from ≤ to }
    requires in_time { to ≤ apart.old.table.ticks }
    ensures { OnOk result
        (HasList apart.old apart.new task (with_ticks (core_entries apart.old task) task from to)) }
{
    let idle = from - apart.filled(task);
    apart.push(task, None, idle)?;
    apart.push(task, Some(task), to - from)
}

/// Appends the ticks of a stretch to the list of the task that runs in it, if one does.
fn add(apart: &mut RunData, who: Option<u32>, from: u64, to: u64) -> Result<(), NoMemory>
    requires takes { TakesTicks who from to apart.old }
    requires ahead { from ≤ to }
    requires in_time { to ≤ apart.old.table.ticks }
    ensures { OnOk result (HasTicks who from to apart.old apart.new) }
{
    match who {
        None => Ok(()),
        Some(task) => append(apart, task, from, to),
    }
}

/// Puts the ticks of each task of a core into the list of that task.
fn add_core(
    model: &ValidModel,
    run: &RunData,
    core: u32,
    apart: &mut RunData,
) -> Result<(), NoMemory>
    requires core { core < length model.now.cores }
    requires in_form { IsInForm (system_of model.now) run.now }
    requires before { AreApartUpTo (system_of model.now) run.now core 0 apart.old }
    ensures { OnOk result (AreApartUpTo (system_of model.now) run.now (core + 1) 0 apart.new) }
{
    let mut from = 0;
    for stretch in run.stretches(core) {
        add(apart, stretch.who, from, stretch.end)?;
        from = stretch.end;
    }
    Ok(())
}

/// Lists the ticks of each task of a run apart from those of the others. The result has a list of
/// entries for each task, in file order: there the task runs in the same ticks as on its core, up
/// to the last of them, and no task runs in the others. It has the ticks of the run and no jobs.
///
/// The run is in form, and stays as it was. `NoMemory` comes where there is no memory for the
/// lists; it leaves nothing. Takes time linear in the stretches of the run and its numbers of tasks
/// and cores.
pub fn tasks_apart(alloc: Global, model: &ValidModel, run: &RunData) -> Result<RunData, NoMemory>
    requires { IsInForm (system_of model.now) run.now }
    ensures { IfOk result (StandApart (system_of model.now) run.now) }
{
    let table = JobTable {
        ticks: run.table().ticks,
        jobs: List::new(alloc),
    };
    let mut apart = RunData::start(alloc, table, model.tasks())?;
    for core in 0..model.cores() {
        add_core(model, run, core, &mut apart)?;
    }
    Ok(apart)
}
