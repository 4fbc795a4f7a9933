//! The checks of the labels that a new task reads and writes. They look up only these labels.
ghost use Rattle.std.specs.Prelude.{[], ◌∷◌, ◌++◌, map, IfOk, OnOk};
ghost use Rattle.cl_model.specs.{Answers.Answers, Named.{label_names, labels_written, all_runnables}, Ranges.IsTaskInRange, ValidTasks.body_checks};
ghost use Rattle.cl_edit.specs.Inner.NewTasks.{labels_of, AgreeOn, AreAlike};

use cl_model::{LabelDef, ModelFault, Name, NameSet, Place, RunnableDef, TaskDef, ValidModel};
use cl_time::NoMemory;
use cl_valid::check_runnables;
use std::alloc::Global;

/// Adds names to a set.
fn add_all(names: &mut NameSet, labels: &[Name]) -> Result<(), NoMemory>
    ensures { OnOk result (AreAlike names.new (names.old ++ labels.now)) }
{
    for label in labels {
        let _ = names.add(label)?;
    }
    Ok(())
}

/// Collects the labels that runnables read and write.
fn own_labels(alloc: Global, runnables: &[RunnableDef]) -> Result<NameSet, NoMemory>
    ensures { IfOk result (λ own. AreAlike own (labels_of runnables.now)) }
{
    let mut own = NameSet::new(alloc);
    for runnable in runnables {
        add_all(&mut own, runnable.reads.as_slice())?;
        add_all(&mut own, runnable.writes.as_slice())?;
    }
    Ok(own)
}

/// Adds a name to `among` if `own` has it.
fn add_own(among: &mut NameSet, own: &NameSet, name: &Name) -> Result<(), NoMemory>
    ensures { OnOk result (AgreeOn own.now among.new (among.old ++ name.now ∷ [])) }
{
    if own.contains(name) {
        let _ = among.add(name)?;
    }
    Ok(())
}

/// Collects the labels of the model that are in `own`.
fn labels_among(alloc: Global, own: &NameSet, labels: &[LabelDef]) -> Result<NameSet, NoMemory>
    ensures { IfOk result (λ among. AgreeOn own.now among (map (λ label. label.name) labels.now)) }
{
    let mut among = NameSet::new(alloc);
    for label in labels {
        add_own(&mut among, own, &label.name)?;
    }
    Ok(among)
}

fn add_all_own(among: &mut NameSet, own: &NameSet, labels: &[Name]) -> Result<(), NoMemory>
    ensures { OnOk result (AgreeOn own.now among.new (among.old ++ labels.now)) }
{
    for label in labels {
        add_own(among, own, label)?;
    }
    Ok(())
}

fn add_written(
    among: &mut NameSet,
    own: &NameSet,
    runnables: &[RunnableDef],
) -> Result<(), NoMemory>
    ensures { OnOk result (AgreeOn own.now among.new (among.old ++ labels_written runnables.now)) }
{
    for runnable in runnables {
        add_all_own(among, own, runnable.writes.as_slice())?;
    }
    Ok(())
}

/// Collects the labels in `own` that the tasks write.
fn written_among(alloc: Global, own: &NameSet, tasks: &[TaskDef]) -> Result<NameSet, NoMemory>
    ensures { IfOk result
        (λ among. AgreeOn own.now among (labels_written (all_runnables tasks.now))) }
{
    let mut among = NameSet::new(alloc);
    for task in tasks {
        add_written(&mut among, own, task.runnables.as_slice())?;
    }
    Ok(among)
}

/// Checks M36 to M40 for a new task at a place, in one pass over the labels of the model and one
/// over the labels that its runnables write.
pub(crate) fn check_labels(
    alloc: Global,
    model: &ValidModel,
    place: Place,
    task: &TaskDef,
) -> Result<(), ModelFault>
    requires { IsTaskInRange task.now }
    ensures { Answers result
        (body_checks (label_names model.now) (labels_written (all_runnables model.now.tasks)) place task.now) tt }
{
    let plain = model.plain();
    let own = own_labels(alloc, task.runnables.as_slice())?;
    let known = labels_among(alloc, &own, plain.labels.as_slice())?;
    let written = written_among(alloc, &own, plain.tasks.as_slice())?;
    check_runnables(alloc, &known, written, place, task)
}
