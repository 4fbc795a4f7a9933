//! Changes of the tables beside a model. After `NoMemory` they may be those of no model.
ghost use Rattle.std.specs.Prelude.{◌≡◌, ◌<◌, ◌^◌, true, [], length, remove, insert, slice_index_or, slice_set, OnOk, All};
ghost use Rattle.cl_model.specs.{Named.{has_name, runnable_names}, NameSets.AreNew, Ranges.IsTaskInRange, Inner.{LookUps.{ChainAdded, ChainDropped, RowAdded, TaskAdded, place_among, IsListed, TaskMoved, HasRow, RowDropped, TaskDropped}, StepTable.HasSteps}};

use crate::chain::ChainDef;
use crate::groups::groups_of_chain;
use crate::list::List;
use crate::look_ups::{LookUps, TaskTables, greatest_time, put};
use crate::task::TaskDef;
use crate::task_numbers::{renumber_chains, renumber_cores};
use cl_time::NoMemory;
use std::alloc::Global;

impl LookUps {
    /// Appends a chain, whose runnables must be known. After `NoMemory` the tables may be those of
    /// no model.
    pub fn add_chain(&mut self, alloc: Global, chain: &ChainDef) -> Result<(), NoMemory>
        requires known { All
            (λ name. has_name name self.old.steps.names ≡ true) chain.now.runnables }
        requires paired { length self.old.steps.steps.items ≡ length self.old.steps.names }
        ensures { OnOk result (ChainAdded chain.now self.old self.new) }
    {
        let groups = groups_of_chain(alloc, &self.steps, chain)?;
        self.groups.push(groups)?;
        let _is_new = self.names.chains.add(&chain.name)?;
        Ok(())
    }

    /// Removes a chain. The others keep their order.
    pub fn drop_chain(&mut self, chain: usize)
        requires { chain < length self.old.groups.items }
        ensures { ChainDropped chain self.old self.new }
    {
        let _groups = self.groups.remove(chain);
        self.names.chains.remove(chain);
    }

    /// Appends a task, whose core and stimulus have these numbers. After `NoMemory` the tables may
    /// be those of no model.
    pub fn add_task(&mut self, task: &TaskDef, core: u32, stimulus: u32) -> Result<(), NoMemory>
        requires in_range { IsTaskInRange task.now }
        requires new { AreNew self.old.steps.names (runnable_names task.now.runnables) }
        requires few { length self.old.tasks.cores.items < 2 ^ 32 }
        requires core { core < length self.old.tasks.on_cores.items }
        ensures { OnOk result (TaskAdded task.now core stimulus self.old self.new) }
    {
        let number = self.tasks.cores.len() as u32;
        self.tasks.add_task(core, stimulus, greatest_time(task))?;
        self.steps.add_task(number, task)?;
        let _is_new = self.names.tasks.add(&task.name)?;
        Ok(())
    }

    /// Removes a task that no chain names. Its runnables have the numbers from `first` up to, but
    /// not including, `last`. The tasks after it get numbers that are one less.
    pub fn drop_task(&mut self, task: u32, first: usize, last: usize)
        requires row { HasRow self.old.tasks task }
        requires steps { HasSteps self.old.steps first last }
        ensures { TaskDropped task first last self.old self.new }
    {
        self.tasks.drop_task(task);
        self.steps.drop_task(task, first, last);
        renumber_chains(&mut self.groups, task);
        self.names.tasks.remove(task as usize);
    }
}

/// Counts the tasks before `task` among others in file order: its index there.
fn place_among(tasks: &[u32], task: u32) -> usize
    ensures { result ≡ place_among tasks.now task }
{
    tasks.iter().filter(|other| **other < task).count()
}

fn take_out(lists: &mut Vec<List<u32>>, core: usize, task: u32)
    requires core { core < length lists.old.items }
    requires listed { place_among (slice_index_or lists.old.items core []) task
        < length (slice_index_or lists.old.items core []) }
    ensures { lists.new.items ≡ slice_set lists.old.items core (remove (slice_index_or lists.old.items core []) (place_among (slice_index_or lists.old.items core []) task)) }
{
    let tasks = &mut lists[core];
    let place = place_among(tasks.as_slice(), task);
    let _taken = tasks.remove(place);
}

fn put_in(lists: &mut Vec<List<u32>>, core: usize, task: u32) -> Result<(), NoMemory>
    requires { core < length lists.old.items }
    ensures { OnOk result
        (lists.new.items ≡ slice_set lists.old.items core (insert (slice_index_or lists.old.items core []) (place_among (slice_index_or lists.old.items core []) task) task)) }
{
    let tasks = &mut lists[core];
    let place = place_among(tasks.as_slice(), task);
    tasks.insert(place, task)
}

impl TaskTables {
    /// Appends a task of this core, this stimulus and this execution time.
    fn add_task(&mut self, core: u32, stimulus: u32, time: u64) -> Result<(), NoMemory>
        requires core { core < length self.old.on_cores.items }
        requires few { length self.old.cores.items < 2 ^ 32 }
        ensures { OnOk result (RowAdded core stimulus time self.old self.new) }
    {
        let number = self.cores.len() as u32;
        put(&mut self.on_cores, core as usize, number)?;
        self.cores.push(core)?;
        self.stimuli.push(stimulus)?;
        self.times.push(time)?;
        Ok(())
    }

    /// Moves a task to a core, from the one that it is on. After `NoMemory` no core lists the task.
    pub fn move_task(&mut self, task: u32, core: u32) -> Result<(), NoMemory>
        requires task { task < length self.old.cores.items }
        requires core { core < length self.old.on_cores.items }
        requires listed { IsListed self.old task }
        ensures { OnOk result (TaskMoved task core self.old self.new) }
    {
        let left = self.cores[task as usize];
        take_out(&mut self.on_cores, left as usize, task);
        put_in(&mut self.on_cores, core as usize, task)?;
        self.cores[task as usize] = core;
        Ok(())
    }

    /// Removes a task. The tasks after it get numbers that are one less.
    fn drop_task(&mut self, task: u32)
        requires { HasRow self.old task }
        ensures { RowDropped task self.old self.new }
    {
        let core = self.cores[task as usize];
        take_out(&mut self.on_cores, core as usize, task);
        renumber_cores(&mut self.on_cores, task);
        let _core = self.cores.remove(task as usize);
        let _stimulus = self.stimuli.remove(task as usize);
        let _time = self.times.remove(task as usize);
    }
}
