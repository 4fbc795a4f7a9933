//! Tests of generated models, against values that two other programs computed from the format
//! alone.
use cl_gen::generate;
use cl_model::{MOST_TASKS, RunnableDef, SystemModel, TaskDef};
use cl_time::NoMemory;
use std::alloc::Global;
use std::test::Fail;

/// Counts the cores, stimuli, labels, tasks, chains and requirements of a model.
fn counts(model: &SystemModel) -> [usize; 6] {
    [
        model.cores.len(),
        model.stimuli.len(),
        model.labels.len(),
        model.tasks.len(),
        model.chains.len(),
        model.requirements.len(),
    ]
}

/// Puts the times of a runnable, and whether it runs whole.
fn put_runnable(text: &mut String, alloc: Global, runnable: &RunnableDef) -> Result<(), NoMemory> {
    let (least, greatest, whole) = (runnable.least, runnable.greatest, runnable.whole);
    Ok(text.push_str(&format!(in alloc; ", {least} to {greatest} {whole}")?)?)
}

/// Puts the stimulus of a task, its priority, its access, its deadline and its runnables.
fn put_task(text: &mut String, alloc: Global, task: &TaskDef) -> Result<(), NoMemory> {
    let (stimulus, priority) = (&task.stimulus, task.priority);
    let (access, deadline) = (task.access, task.deadline);
    text.push_str(&format!(in alloc; "{stimulus:?} {priority} {access:?} {deadline:?}")?)?;
    for runnable in task.runnables.as_slice() {
        put_runnable(text, alloc, runnable)?;
    }
    Ok(text.push_str("\n")?)
}

/// Writes the tasks of a model, a line each.
fn tasks_text(alloc: Global, model: &SystemModel) -> Result<String, NoMemory> {
    let mut text = String::new(alloc);
    for task in model.tasks.as_slice() {
        put_task(&mut text, alloc, task)?;
    }
    Ok(text)
}

/// What is asked about a generated model.
#[derive(Clone, Copy)]
enum Asked {
    Counts,
    Tasks,
    Chains,
}

fn found_in(alloc: Global, model: &SystemModel, asked: Asked) -> Result<String, NoMemory> {
    match asked {
        Asked::Counts => Ok(format!(in alloc; "{:?}", counts(model))?),
        Asked::Tasks => tasks_text(alloc, model),
        Asked::Chains => Ok(format!(in alloc; "{:?}", model.chains)?),
    }
}

/// Generates the model of a seed and a number of tasks. It is a call of its own so that the proof
/// of a test need not look at their values.
fn of_seed(alloc: Global, seed: u64, tasks: u64) -> Result<SystemModel, Fail> {
    if tasks == 0 || tasks > MOST_TASKS as u64 {
        return Err(Fail::from("so many tasks are in range"));
    }
    Ok(generate(alloc, seed, tasks)?)
}

/// Writes what is found in that model.
fn found(alloc: Global, seed: u64, tasks: u64, asked: Asked) -> Result<String, Fail> {
    let model = of_seed(alloc, seed, tasks)?;
    let text = found_in(alloc, &model, asked);
    drop(model);
    Ok(text?)
}

#[test]
fn generates_a_model_of_four_tasks(rt: HostRuntime) -> Result<(), Fail> {
    let counts = found(rt.alloc(), 9, 4, Asked::Counts)?;
    assert_eq!(rt; counts.as_str(), "[1, 9, 8, 4, 1, 0]");
    Ok(())
}

#[test]
fn generates_tasks_of_two_runnables(rt: HostRuntime) -> Result<(), Fail> {
    let tasks = found(rt.alloc(), 9, 4, Asked::Tasks)?;
    let wanted = "\"p2\" 111 Implicit None, 30 to 85 false, 11 to 53 false\n\
        \"p8\" 14 Implicit None, 13675 to 26349 false, 6700 to 18404 false\n\
        \"p1\" 125 Timed None, 50 to 59 false, 2 to 62 false\n\
        \"p2\" 108 Timed None, 49 to 143 false, 23 to 74 false\n";
    assert_eq!(rt; tasks.as_str(), wanted);
    Ok(())
}

#[test]
fn generates_a_chain_through_four_tasks(rt: HostRuntime) -> Result<(), Fail> {
    let chains = found(rt.alloc(), 9, 4, Asked::Chains)?;
    assert_eq!(rt;
        chains.as_str(),
        "List { items: [ChainDef { name: \"k0\", runnables: List { items: [\"t0a\", \"t0b\", \"t1a\", \"t1b\", \"t2a\", \"t2b\", \"t3a\", \"t3b\"] }, labels: List { items: [\"m0\", \"l0\", \"m1\", \"l1\", \"m2\", \"l2\", \"m3\"] } }] }"
    );
    Ok(())
}

#[test]
fn generates_a_model_of_three_tasks(rt: HostRuntime) -> Result<(), Fail> {
    let counts = found(rt.alloc(), 9, 3, Asked::Counts)?;
    assert_eq!(rt; counts.as_str(), "[1, 9, 6, 3, 0, 0]");
    Ok(())
}
