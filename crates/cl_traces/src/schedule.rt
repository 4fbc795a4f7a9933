//! What is said of a core that doesn't execute what is scheduled. Times are in ticks.
ghost use Rattle.std.specs.Prelude.{◌≡◌, ◌<◌, ◌++◌, length, codes, IfOk, IfSome, OnOk};
ghost use Rattle.cl_runs.specs.{Run.IsInForm, SystemOf.system_of, Table.IsLawful, Legal.IsLegal};
ghost use Rattle.cl_check.specs.declared.run_fault.Rule.TheVariants.{Schedule};
ghost use Rattle.cl_traces.specs.SaidOfRules.{found_and_wanted, entry_words, TellsOfRule};

use crate::copying::copy_table;
use cl_model::{TaskDef, ValidModel};
use cl_run_data::RunData;
use cl_sched::simulate;
use cl_text::Text;
use cl_time::NoMemory;
use std::alloc::Global;

/// Appends that a task runs.
fn put_task(text: &mut Text, task: &TaskDef) -> Result<(), NoMemory>
    ensures { OnOk result (text.new ≡ text.old ++ (codes "task " ++ task.now.name)) }
{
    text.put(b"task ")?;
    text.put(task.name.as_slice())?;
    Ok(())
}

/// Appends what a core does: a task runs, or the core idles.
fn put_entry(text: &mut Text, model: &ValidModel, entry: Option<u32>) -> Result<(), NoMemory>
    requires { IfSome entry (λ task. task < length model.now.tasks) }
    ensures { OnOk result (text.new ≡ text.old ++ entry_words model.now entry) }
{
    match entry {
        None => text.put(b"idle"),
        Some(task) => put_task(text, model.task(task)),
    }
}

/// Appends what a core does, and what it is wanted to do.
fn put_entries(
    text: &mut Text,
    model: &ValidModel,
    found: Option<u32>,
    wanted: Option<u32>,
) -> Result<(), NoMemory>
    requires found { IfSome found (λ task. task < length model.now.tasks) }
    requires wanted { IfSome wanted (λ task. task < length model.now.tasks) }
    ensures { OnOk result
        (text.new ≡ text.old ++ found_and_wanted (entry_words model.now found) (entry_words model.now wanted)) }
{
    text.put(b"found ")?;
    put_entry(text, model, found)?;
    text.put(b"\nwanted ")?;
    put_entry(text, model, wanted)?;
    text.put(b"\n")?;
    Ok(())
}

/// Computes the legal run with the job table of a run.
fn legal_run(alloc: Global, model: &ValidModel, run: &RunData) -> Result<RunData, NoMemory>
    requires { IsLawful (system_of model.now) run.now.table }
    ensures legal { IfOk result (λ legal. IsLegal (system_of model.now) legal) }
    ensures table { IfOk result (λ legal. legal.table ≡ run.now.table) }
{
    let table = copy_table(alloc, run.table())?;
    simulate(alloc, model, table)
}

/// Appends what is said of a core at a tick: what the run has there, and what the legal run with
/// the same job table has.
pub(crate) fn put_schedule(
    text: &mut Text,
    alloc: Global,
    model: &ValidModel,
    run: &RunData,
    core: u32,
    tick: u64,
) -> Result<(), NoMemory>
    requires in_form { IsInForm (system_of model.now) run.now }
    requires lawful { IsLawful (system_of model.now) run.now.table }
    requires core { core < length model.now.cores }
    requires tick { tick < run.now.table.ticks }
    ensures { OnOk result (TellsOfRule model.now run.now Schedule core tick text.old text.new) }
{
    let legal = legal_run(alloc, model, run)?;
    let found = run.entry(core, tick);
    let wanted = legal.entry(core, tick);
    put_entries(text, model, found, wanted)?;
    Ok(())
}
