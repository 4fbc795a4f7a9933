//! The numbers of tasks when one of them is removed: those after it get numbers that are one less.
ghost use Rattle.std.specs.Prelude.{◌≡◌, map};
ghost use Rattle.cl_model.specs.TaskNumbers.{number_without, step_without, group_without};

use crate::group::{Group, Step};
use crate::list::List;

fn number_without(gone: u32, task: u32) -> u32
    ensures { result ≡ number_without gone task }
{
    if gone < task { task - 1 } else { task }
}

/// Renumbers tasks for the removal of task `gone`.
pub fn renumber_tasks(tasks: &mut List<u32>, gone: u32)
    ensures { tasks.new ≡ map (number_without gone) tasks.old }
{
    for place in 0..tasks.len() {
        let task = tasks.item_mut(place);
        *task = number_without(gone, *task);
    }
}

/// Renumbers the task of each step for the removal of task `gone`.
pub fn renumber_steps(steps: &mut Vec<Step>, gone: u32)
    ensures { steps.new.items ≡ map (step_without gone) steps.old.items }
{
    for step in steps.iter_mut() {
        step.task = number_without(gone, step.task);
    }
}

/// Renumbers the task of each group for the removal of task `gone`.
pub fn renumber_groups(groups: &mut List<Group>, gone: u32)
    ensures { groups.new ≡ map (group_without gone) groups.old }
{
    for place in 0..groups.len() {
        let group = groups.item_mut(place);
        group.task = number_without(gone, group.task);
    }
}

/// Renumbers the tasks of each core for the removal of task `gone`.
pub fn renumber_cores(cores: &mut Vec<List<u32>>, gone: u32)
    ensures { cores.new.items ≡ map (map (number_without gone)) cores.old.items }
{
    for tasks in cores.iter_mut() {
        renumber_tasks(tasks, gone);
    }
}

/// Renumbers the tasks of the groups of each chain for the removal of task `gone`.
pub fn renumber_chains(chains: &mut Vec<List<Group>>, gone: u32)
    ensures { chains.new.items ≡ map (map (group_without gone)) chains.old.items }
{
    for groups in chains.iter_mut() {
        renumber_groups(groups, gone);
    }
}
