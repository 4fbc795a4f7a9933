//! The tables that are kept beside a valid model, so that it answers in constant time.
ghost use Rattle.std.specs.Prelude.{◌≡◌, ◌<◌, ◌^◌, [], ◌∷◌, ◌++◌, length, map, replicate, slice_index_or, slice_set, IfOk, OnOk, All};
ghost use Rattle.std.specs.List.{range_with_len};
ghost use Rattle.cl_model.specs.{Named.{core_names, stimulus_names, kind_named}, ByNumber.{core_number, stimulus_number, greatest_time, tasks_of_core}, Ranges.IsTaskInRange, Inner.LookUps.{AreNamesOf, AreTaskTablesOf, AreLookUpsOf}, Validity.IsValid};

mod changes;

use crate::entries::name_numbers;
use crate::group::Group;
use crate::groups::{StepTable, groups_of_chains, step_table};
use crate::list::List;
use crate::model::SystemModel;
use crate::name::Name;
use crate::name_set::NameSet;
use crate::stimulus::StimulusKind;
use crate::task::TaskDef;
use cl_time::NoMemory;
use std::alloc::Global;

/// Finds the kind of the stimulus of this name, or `None` exactly where no stimulus has it.
/// `stimuli` are the names of the model's stimuli, numbered as these.
pub fn kind_named(model: &SystemModel, stimuli: &NameSet, name: &Name) -> Option<StimulusKind>
    requires { stimuli.now ≡ stimulus_names model.now }
    ensures { result ≡ kind_named model.now name.now }
{
    let number = stimuli.number_of(name)?;
    let stimulus = model.stimuli.at(number)?;
    Some(stimulus.kind)
}

fn core_numbers(alloc: Global, model: &SystemModel, cores: &NameSet) -> Result<Vec<u32>, NoMemory>
    requires valid { IsValid model.now }
    requires cores { cores.now ≡ core_names model.now }
    ensures { IfOk result (λ numbers. numbers.items ≡ map (core_number model.now) model.now.tasks) }
{
    let mut numbers = Vec::with_capacity(alloc, model.tasks.len())?;
    for task in model.tasks.as_slice() {
        let Some(number) = cores.number_of(&task.core) else {
            unreachable!();
        };
        numbers.push(number as u32)?;
    }
    Ok(numbers)
}

fn stimulus_numbers(
    alloc: Global,
    model: &SystemModel,
    stimuli: &NameSet,
) -> Result<Vec<u32>, NoMemory>
    requires valid { IsValid model.now }
    requires stimuli { stimuli.now ≡ stimulus_names model.now }
    ensures { IfOk result
        (λ numbers. numbers.items ≡ map
        (λ task. stimulus_number model.now task.stimulus) model.now.tasks) }
{
    let mut numbers = Vec::with_capacity(alloc, model.tasks.len())?;
    for task in model.tasks.as_slice() {
        let Some(number) = stimuli.number_of(&task.stimulus) else {
            unreachable!();
        };
        numbers.push(number as u32)?;
    }
    Ok(numbers)
}

/// Returns the greatest execution time of a job of a task, in ticks: the sum over its runnables.
pub fn greatest_time(task: &TaskDef) -> u64
    requires { greatest_time task.now < 2 ^ 64 }
    ensures { result ≡ greatest_time task.now }
{
    task.runnables
        .iter()
        .map(|runnable| runnable.greatest)
        .sum()
}

fn greatest_times(alloc: Global, tasks: &[TaskDef]) -> Result<Vec<u64>, NoMemory>
    requires { All IsTaskInRange tasks.now }
    ensures { IfOk result (λ times. times.items ≡ map greatest_time tasks.now) }
{
    let mut times = Vec::with_capacity(alloc, tasks.len())?;
    for task in tasks {
        times.push(greatest_time(task))?;
    }
    Ok(times)
}

fn no_tasks(alloc: Global, cores: usize) -> Result<Vec<List<u32>>, NoMemory>
    ensures { IfOk result (λ lists. lists.items ≡ replicate cores []) }
{
    let mut lists = Vec::with_capacity(alloc, cores)?;
    for _ in 0..cores {
        lists.push(List::new(alloc))?;
    }
    Ok(lists)
}

fn put(lists: &mut Vec<List<u32>>, core: usize, task: u32) -> Result<(), NoMemory>
    requires { core < length lists.old.items }
    ensures { OnOk result
        (lists.new.items ≡ slice_set lists.old.items core (slice_index_or lists.old.items core []
        ++ task ∷ [])) }
{
    lists[core].push(task)
}

fn tasks_of_cores(
    alloc: Global,
    model: &SystemModel,
    core_numbers: &[u32],
) -> Result<Vec<List<u32>>, NoMemory>
    requires valid { IsValid model.now }
    requires numbers { core_numbers.now ≡ map (core_number model.now) model.now.tasks }
    ensures { IfOk result
        (λ lists. lists.items ≡ map (tasks_of_core model.now) (range_with_len 0 (length model.now.cores))) }
{
    let mut lists = no_tasks(alloc, model.cores.len())?;
    for (task, core) in core_numbers.iter().enumerate() {
        put(&mut lists, *core as usize, task as u32)?;
    }
    Ok(lists)
}

/// The names of the entries of the sections, numbered as the entries.
#[derive(Drop)]
pub struct SectionNames {
    pub cores: NameSet,
    pub stimuli: NameSet,
    pub tasks: NameSet,
    pub chains: NameSet,
    pub requirements: NameSet,
}

fn section_names(alloc: Global, model: &SystemModel) -> Result<SectionNames, NoMemory>
    requires { IsValid model.now }
    ensures { IfOk result (AreNamesOf model.now) }
{
    Ok(SectionNames {
        cores: name_numbers(alloc, model.cores.as_slice())?,
        stimuli: name_numbers(alloc, model.stimuli.as_slice())?,
        tasks: name_numbers(alloc, model.tasks.as_slice())?,
        chains: name_numbers(alloc, model.chains.as_slice())?,
        requirements: name_numbers(alloc, model.requirements.as_slice())?,
    })
}

/// The tables of the tasks and of the cores, by their numbers.
#[derive(Drop)]
pub struct TaskTables {
    /// The number of the core of each task.
    pub cores: Vec<u32>,
    /// The number of the stimulus of each task.
    pub stimuli: Vec<u32>,
    /// The greatest execution time of a job of each task, in ticks.
    pub times: Vec<u64>,
    /// The numbers of the tasks of each core, in file order.
    pub on_cores: Vec<List<u32>>,
}

fn task_tables(
    alloc: Global,
    model: &SystemModel,
    names: &SectionNames,
) -> Result<TaskTables, NoMemory>
    requires valid { IsValid model.now }
    requires names { AreNamesOf model.now names.now }
    ensures { IfOk result (AreTaskTablesOf model.now) }
{
    let cores = core_numbers(alloc, model, &names.cores)?;
    let on_cores = tasks_of_cores(alloc, model, cores.as_slice())?;
    Ok(TaskTables {
        cores,
        stimuli: stimulus_numbers(alloc, model, &names.stimuli)?,
        times: greatest_times(alloc, model.tasks.as_slice())?,
        on_cores,
    })
}

/// The tables that are kept beside a model.
pub struct LookUps {
    pub names: SectionNames,
    pub tasks: TaskTables,
    /// The runnables by name, in file order.
    pub steps: StepTable,
    /// The groups of each chain, in order.
    pub groups: Vec<List<Group>>,
}

// Written out, so that a function that lets the tables go calls this once.
impl Drop for LookUps {
    fn drop(self) {
        let LookUps {
            names: _names,
            tasks: _tasks,
            steps: _steps,
            groups: _groups,
        } = self;
    }
}

/// Makes the tables of a valid model, in time linear in the size of the model. Fails with
/// `NoMemory` where memory runs out.
pub fn look_ups_of(alloc: Global, model: &SystemModel) -> Result<LookUps, NoMemory>
    requires { IsValid model.now }
    ensures { IfOk result (AreLookUpsOf model.now) }
{
    let names = section_names(alloc, model)?;
    let tasks = task_tables(alloc, model, &names)?;
    let steps = step_table(alloc, model)?;
    let groups = groups_of_chains(alloc, model, &steps)?;
    Ok(LookUps {
        names,
        tasks,
        steps,
        groups,
    })
}
