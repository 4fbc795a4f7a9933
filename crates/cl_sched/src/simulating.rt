//! Computing the legal run of a job table. Times are in ticks.
ghost use Rattle.std.specs.Prelude.{◌≡◌, ◌<◌, ◌≤◌, true, [], length, replicate, IfOk, OnOk};
ghost use Rattle.cl_runs.specs.{TaskTiming.IsSound, SystemOf.system_of, Table.IsLawful, Run.core_entries, Legal.IsLegal};
ghost use Rattle.cl_run_data.specs.Parts.{is_among, IsLawfulOn, HasNoOtherJobs, IsLegalOn};
ghost use Rattle.cl_sched.specs.{Continuing.HasContinuations, CoreTables.HaveTimes, CoreProgress.{IsLawfulAt, IsReached}, Inner.Filling.{AreScheduled, HasFilled, HasFilledIf}};

use crate::core_progress::CoreProgress;
use cl_model::ValidModel;
use cl_run_data::RunData;
use cl_runs::JobTable;
use cl_time::NoMemory;
use std::alloc::Global;

/// Fills the entries of a core from where it has come to the end of the run, from event to event.
fn fill_from(
    model: &ValidModel,
    run: &mut RunData,
    core: u32,
    reached: &mut CoreProgress,
) -> Result<(), NoMemory>
    requires sound { IsSound (system_of model.now) }
    requires lawful { IsLawfulAt (system_of model.now) core run.old.table }
    requires core { core < length run.old.entries }
    requires reached { IsReached (system_of model.now) run.old.table core (core_entries run.old core) reached.old }
    requires scheduled { AreScheduled (system_of model.now) run.old.table core (core_entries run.old core) }
    requires within { reached.old.tick ≤ run.old.table.ticks }
    ensures { OnOk result (HasFilled (system_of model.now) core run.old run.new) }
{
    let end = run.table().ticks;
    'events: while reached.tick < end {
        let next = reached.next(end);
        run.push(core, next.who, next.until - reached.tick)?;
        reached.advance(model, run.table(), next, next.until);
    }
    Ok(())
}

/// Fills the entries of a core, which are empty before.
fn fill_core(
    alloc: Global,
    model: &ValidModel,
    run: &mut RunData,
    core: u32,
) -> Result<(), NoMemory>
    requires sound { IsSound (system_of model.now) }
    requires lawful { IsLawfulAt (system_of model.now) core run.old.table }
    requires core { core < length run.old.entries }
    requires in_model { core < length model.now.cores }
    requires empty { core_entries run.old core ≡ [] }
    ensures { OnOk result (HasFilled (system_of model.now) core run.old run.new) }
{
    let mut reached = CoreProgress::begin(alloc, model, run.table(), core)?;
    fill_from(model, run, core, &mut reached)
}

/// Fills the entries of all cores, which are empty before.
fn fill(alloc: Global, model: &ValidModel, run: &mut RunData) -> Result<(), NoMemory>
    requires lawful { IsLawful (system_of model.now) run.old.table }
    requires empty { run.old.entries ≡ replicate (length model.now.cores) [] }
    ensures table { OnOk result (run.new.table ≡ run.old.table) }
    ensures legal { OnOk result (IsLegal (system_of model.now) run.new) }
{
    for core in 0..model.cores() {
        fill_core(alloc, model, run, core)?;
    }
    Ok(())
}

/// Computes the legal run of a lawful job table. There is exactly one, and it goes on to a legal
/// run of every greater length. Goes from event to event: a release, the finish of a job or of a
/// runnable, or the end, so a long time in which nothing happens costs no more than a short one.
/// `NoMemory` comes where there is no memory for the run; then the table is dropped.
pub fn simulate(alloc: Global, model: &ValidModel, table: JobTable) -> Result<RunData, NoMemory>
    requires { IsLawful (system_of model.now) table }
    ensures table { IfOk result (λ run. run.table ≡ table) }
    ensures legal { IfOk result (IsLegal (system_of model.now)) }
    ensures continuation { IfOk result (HasContinuations (system_of model.now)) }
{
    let mut run = RunData::start(alloc, table, model.cores())?;
    match fill(alloc, model, &mut run) {
        Ok(()) => Ok(run),
        Err(no_memory) => Err(no_memory),
    }
}

/// Checks whether a core is among those that are marked.
fn is_marked(cores: &[bool], core: u32) -> bool
    ensures { result ≡ is_among cores.now core }
{
    (core as usize) < cores.len() && cores[core as usize]
}

/// Fills the entries of a core where it is to be filled, and lets it idle otherwise. The entries are
/// empty before.
fn fill_if(
    alloc: Global,
    model: &ValidModel,
    run: &mut RunData,
    core: u32,
    fills: bool,
) -> Result<(), NoMemory>
    requires sound { IsSound (system_of model.now) }
    requires lawful { fills ≡ true → IsLawfulAt (system_of model.now) core run.old.table }
    requires core { core < length run.old.entries }
    requires in_model { core < length model.now.cores }
    requires empty { core_entries run.old core ≡ [] }
    ensures { OnOk result (HasFilledIf fills (system_of model.now) core run.old run.new) }
{
    if fills {
        return fill_core(alloc, model, run, core);
    }
    let ticks = run.table().ticks;
    run.push(core, None, ticks)
}

/// Fills the entries of the marked cores, and lets the others idle. All entries are empty before.
fn fill_marked(
    alloc: Global,
    model: &ValidModel,
    run: &mut RunData,
    cores: &[bool],
) -> Result<(), NoMemory>
    requires lawful { IsLawfulOn (system_of model.now) cores.now run.old.table }
    requires times { HaveTimes (system_of model.now) run.old.table }
    requires empty { run.old.entries ≡ replicate (length model.now.cores) [] }
    ensures table { OnOk result (run.new.table ≡ run.old.table) }
    ensures legal { OnOk result (IsLegalOn (system_of model.now) cores.now run.new) }
{
    for core in 0..model.cores() {
        let fills = is_marked(cores, core);
        fill_if(alloc, model, run, core, fills)?;
    }
    Ok(())
}

/// Computes the run of a job table on some cores alone, which `cores` marks by their numbers; the
/// others have no jobs and idle, one long stretch each. A core past the end of `cores` isn't marked.
/// What the run shows of the marked cores is so in a legal run. Goes from event to event, as
/// `simulate` does, on the marked cores alone. `NoMemory` comes where there is no memory for the
/// run; then the table is dropped.
pub fn simulate_cores(
    alloc: Global,
    model: &ValidModel,
    table: JobTable,
    cores: &[bool],
) -> Result<RunData, NoMemory>
    requires lawful { IsLawfulOn (system_of model.now) cores.now table }
    requires none { HasNoOtherJobs (system_of model.now) cores.now table }
    ensures table { IfOk result (λ run. run.table ≡ table) }
    ensures legal { IfOk result (IsLegalOn (system_of model.now) cores.now) }
{
    let mut run = RunData::start(alloc, table, model.cores())?;
    fill_marked(alloc, model, &mut run, cores)?;
    Ok(run)
}
