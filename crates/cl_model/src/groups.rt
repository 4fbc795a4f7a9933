//! The groups of each chain of a valid model.
ghost use Rattle.std.specs.Prelude.{◌≡◌, ◌<◌, ◌^◌, true, [], ◌++◌, map, length, IfOk, OnOk, All};
ghost use Rattle.cl_model.specs.{Groups.{groups, groups_of}, Named.{has_name, runnable_names, all_runnables}, NameSets.AreNew, Ranges.IsTaskInRange, Refusals.each, Inner.StepTable.{steps_in, steps_from, step_in, AreStepsOf, StepsAdded, HasSteps, StepsDropped}, ValidNames.runnable_repeats};
ghost use Rattle.cl_model.specs.Validity.{IsValid};

use crate::chain::ChainDef;
use crate::entries::add_names;
use crate::group::{Group, Step};
use crate::list::List;
use crate::model::SystemModel;
use crate::name::Name;
use crate::name_set::NameSet;
use crate::task::TaskDef;
use crate::task_numbers::renumber_steps;
use cl_time::NoMemory;
use std::alloc::Global;

/// The runnables of a model by name: the number of a name is the index of its step.
#[derive(Drop)]
pub struct StepTable {
    pub names: NameSet,
    pub steps: Vec<Step>,
}

fn names_of_runnables(alloc: Global, tasks: &[TaskDef]) -> Result<NameSet, NoMemory>
    requires { each (runnable_repeats tasks.now) tasks.now ≡ [] }
    ensures { IfOk result (λ names. names ≡ runnable_names (all_runnables tasks.now)) }
{
    let mut names = NameSet::new(alloc);
    for task in tasks {
        add_names(&mut names, task.runnables.as_slice())?;
    }
    Ok(names)
}

fn push_steps(steps: &mut Vec<Step>, task: u32, count: u32) -> Result<(), NoMemory>
    ensures { OnOk result (steps.new.items ≡ steps.old.items ++ steps_in task count) }
{
    for place in 0..count {
        steps.push(Step { task, place })?;
    }
    Ok(())
}

fn steps_of_tasks(alloc: Global, tasks: &[TaskDef]) -> Result<Vec<Step>, NoMemory>
    requires count { length tasks.now < 2 ^ 32 }
    requires in_range { All IsTaskInRange tasks.now }
    ensures { IfOk result (λ steps. steps.items ≡ steps_from 0 tasks.now) }
{
    let mut steps = Vec::new(alloc);
    for (i, task) in tasks.iter().enumerate() {
        push_steps(&mut steps, i as u32, task.runnables.len() as u32)?;
    }
    Ok(steps)
}

/// Makes the table of the runnables of a valid model, in file order. Fails with `NoMemory` where
/// memory runs out.
pub fn step_table(alloc: Global, model: &SystemModel) -> Result<StepTable, NoMemory>
    requires { IsValid model.now }
    ensures { IfOk result (AreStepsOf model.now.tasks) }
{
    let tasks = model.tasks.as_slice();
    Ok(StepTable {
        names: names_of_runnables(alloc, tasks)?,
        steps: steps_of_tasks(alloc, tasks)?,
    })
}

impl StepTable {
    /// Appends the runnables of the task of this number, whose names must be new. After `NoMemory`
    /// names and steps may no longer match.
    pub fn add_task(&mut self, number: u32, task: &TaskDef) -> Result<(), NoMemory>
        requires in_range { IsTaskInRange task.now }
        requires new { AreNew self.old.names (runnable_names task.now.runnables) }
        ensures { OnOk result (StepsAdded number task.now self.old self.new) }
    {
        add_names(&mut self.names, task.runnables.as_slice())?;
        push_steps(&mut self.steps, number, task.runnables.len() as u32)
    }

    /// Removes the runnables from number `first` up to, but not including, `last`, which are all
    /// those of a task. The tasks after it get numbers that are one less.
    pub fn drop_task(&mut self, task: u32, first: usize, last: usize)
        requires { HasSteps self.old first last }
        ensures { StepsDropped task first last self.old self.new }
    {
        self.names.remove_range(first, last);
        self.steps.drain(first..last);
        renumber_steps(&mut self.steps, task);
    }
}

/// Finds the steps of these names, in order. A step is first looked for right after the one before
/// it, where it mostly is.
fn steps_named(alloc: Global, table: &StepTable, names: &[Name]) -> Result<Vec<Step>, NoMemory>
    requires known { All (λ name. has_name name table.now.names ≡ true) names.now }
    requires paired { length table.now.steps.items ≡ length table.now.names }
    ensures { IfOk result (λ steps. steps.items ≡ map (step_in table.now) names.now) }
{
    let mut steps = Vec::with_capacity(alloc, names.len())?;
    let mut guess = 0;
    for name in names {
        let Some(number) = table.names.number_guessed(name, guess) else {
            unreachable!();
        };
        steps.push(table.steps[number])?;
        guess = number.saturating_add(1);
    }
    Ok(steps)
}

/// Finds the groups of a list of steps, in order. Fails with `NoMemory` where memory runs out.
pub fn groups(alloc: Global, steps: &[Step]) -> Result<List<Group>, NoMemory>
    ensures { IfOk result (λ list. list ≡ groups steps.now) }
{
    let mut groups = List::with_room(alloc, steps.len())?;
    let Some((first, others)) = steps.split_first() else {
        return Ok(groups);
    };
    let mut group = Group::of_step(*first);
    for step in others {
        if group.is_inner(*step) {
            group.last = step.place;
        } else {
            groups.push(group)?;
            group = Group::of_step(*step);
        }
    }
    groups.push(group)?;
    Ok(groups)
}

/// Finds the groups of a chain whose runnables are known, in order. Fails with `NoMemory` where
/// memory runs out.
pub fn groups_of_chain(
    alloc: Global,
    table: &StepTable,
    chain: &ChainDef,
) -> Result<List<Group>, NoMemory>
    requires known { All (λ name. has_name name table.now.names ≡ true) chain.now.runnables }
    requires paired { length table.now.steps.items ≡ length table.now.names }
    ensures { IfOk result (λ list. list ≡ groups (map (step_in table.now) chain.now.runnables)) }
{
    let steps = steps_named(alloc, table, chain.runnables.as_slice())?;
    groups(alloc, steps.as_slice())
}

/// Finds the groups of each chain, in file order and in time linear in the size of the model. Fails
/// with `NoMemory` where memory runs out.
pub fn groups_of_chains(
    alloc: Global,
    model: &SystemModel,
    table: &StepTable,
) -> Result<Vec<List<Group>>, NoMemory>
    requires valid { IsValid model.now }
    requires table { AreStepsOf model.now.tasks table.now }
    ensures { IfOk result (λ lists. lists.items ≡ map (groups_of model.now) model.now.chains) }
{
    let mut all = Vec::with_capacity(alloc, model.chains.len())?;
    for chain in model.chains.as_slice() {
        all.push(groups_of_chain(alloc, table, chain)?)?;
    }
    Ok(all)
}
