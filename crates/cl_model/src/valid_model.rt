//! Valid models, which answer in constant time.
ghost use Rattle.std.specs.Prelude.{◌≡◌, ◌<◌, ◌≤◌, length, slice_index_or, IfOk, IfErr, IfSome, is_some, All};
ghost use Rattle.cl_model.specs.{declared.limits.TheConstants.MOST_STEPS, Groups.{no_group, step_named, groups_at, IsStepOf, IsGroupOf}, ByNumber.{task_at, chain_at, requirement_at, core_at, core_of, stimulus_of, deadline_of, jitter_of, time_of, tasks_of_core, core_named, stimulus_named}};
ghost use Rattle.cl_model.specs.{ByNumber.{task_named, chain_named, requirement_named}, Changes.stimulus_at, Named.{has_name, runnable_names, all_runnables}, Validity.IsValid};

mod chains;
mod changes;
mod requirements;
mod tasks;

use crate::chain::{ChainDef, RequirementDef};
use crate::group::{Group, Step};
use crate::look_ups::{LookUps, look_ups_of};
use crate::model::{CoreDef, SystemModel};
use crate::name::Name;
use crate::stimulus::StimulusKind;
use crate::task::TaskDef;
use cl_time::NoMemory;
use std::alloc::Global;
use std::marker::Model;

/// A valid model. What is asked often is kept in tables beside it and answered in constant time.
#[derive(Drop)]
pub struct ValidModel {
    model: SystemModel,
    look_ups: LookUps,
}

impl Model for ValidModel {
    ghost use Rattle.cl_model.specs.declared.model.SystemModel.{SystemModel};

    ghost Value = { SystemModel };

    ghost use Rattle.cl_model.specs.Inner.LookUps.{HasItsLookUps};

    ghost view = { λ a. a.model };

    ghost invariant = { HasItsLookUps };
}

impl ValidModel {
    /// Turns a plain model, which must be valid, into a `ValidModel`. Fails with `NoMemory` where
    /// there is no memory for the tables beside it, and then returns the model unchanged.
    pub fn adopt(alloc: Global, model: SystemModel) -> Result<ValidModel, (SystemModel, NoMemory)>
        requires { IsValid model }
        ensures ok { IfOk result (λ valid. valid ≡ model) }
        ensures err { IfErr result (λ error. error.0 ≡ model) }
    {
        match look_ups_of(alloc, &model) {
            Ok(look_ups) => Ok(ValidModel { model, look_ups }),
            Err(no_memory) => Err((model, no_memory)),
        }
    }

    /// Returns the model itself.
    pub fn plain(&self) -> &SystemModel
        ensures plain { result.now ≡ self.now }
        ensures valid { IsValid self.now }
    {
        &self.model
    }

    /// Returns the number of tasks.
    pub fn tasks(&self) -> u32
        ensures count { result ≡ length self.now.tasks }
        ensures valid { IsValid self.now }
    {
        self.model.tasks.len() as u32
    }

    /// Returns the task of this number.
    pub fn task(&self, task: u32) -> &TaskDef
        requires { task < length self.now.tasks }
        ensures task { result.now ≡ task_at self.now task }
        ensures valid { IsValid self.now }
    {
        &self.model.tasks.as_slice()[task as usize]
    }

    /// Returns the number of cores.
    pub fn cores(&self) -> u32
        ensures count { result ≡ length self.now.cores }
        ensures valid { IsValid self.now }
    {
        self.model.cores.len() as u32
    }

    /// Returns the core of this number.
    pub fn core(&self, core: u32) -> &CoreDef
        requires { core < length self.now.cores }
        ensures core { result.now ≡ core_at self.now core }
        ensures valid { IsValid self.now }
    {
        &self.model.cores.as_slice()[core as usize]
    }

    /// Returns the number of chains.
    pub fn chains(&self) -> u32
        ensures count { result ≡ length self.now.chains }
        ensures valid { IsValid self.now }
    {
        self.model.chains.len() as u32
    }

    /// Returns the chain of this number.
    pub fn chain(&self, chain: u32) -> &ChainDef
        requires { chain < length self.now.chains }
        ensures chain { result.now ≡ chain_at self.now chain }
        ensures valid { IsValid self.now }
    {
        &self.model.chains.as_slice()[chain as usize]
    }

    /// Returns the number of requirements.
    pub fn requirements(&self) -> u32
        ensures count { result ≡ length self.now.requirements }
        ensures valid { IsValid self.now }
    {
        self.model.requirements.len() as u32
    }

    /// Returns the requirement of this number.
    pub fn requirement(&self, requirement: u32) -> &RequirementDef
        requires { requirement < length self.now.requirements }
        ensures requirement { result.now ≡ requirement_at self.now requirement }
        ensures valid { IsValid self.now }
    {
        &self.model.requirements.as_slice()[requirement as usize]
    }

    /// Returns the number of the core of a task.
    pub fn core_of(&self, task: u32) -> u32
        requires { task < length self.now.tasks }
        ensures core { result ≡ core_of self.now task }
        ensures within { result < length self.now.cores }
    {
        self.look_ups.tasks.cores[task as usize]
    }

    /// Returns the number of the stimulus of a task.
    fn stimulus_number(&self, task: u32) -> u32
        requires { task < length self.now.tasks }
        ensures within { result < length self.now.stimuli }
        ensures kind { stimulus_of self.now task ≡ (stimulus_at self.now result).kind }
    {
        self.look_ups.tasks.stimuli[task as usize]
    }

    /// Returns the kind of the stimulus of a task.
    pub fn stimulus_of(&self, task: u32) -> StimulusKind
        requires { task < length self.now.tasks }
        ensures { result ≡ stimulus_of self.now task }
    {
        let number = self.stimulus_number(task);
        self.model.stimuli.as_slice()[number as usize].kind
    }

    /// Returns the deadline of a task in ticks from arrival: the one that is given, or else the
    /// least distance between arrivals.
    pub fn deadline_of(&self, task: u32) -> u64
        requires { task < length self.now.tasks }
        ensures { result ≡ deadline_of self.now task }
    {
        self.task(task).deadline_under(self.stimulus_of(task))
    }

    /// Returns the greatest jitter of a task in ticks: how long after its arrival a job may be
    /// released.
    pub fn jitter_of(&self, task: u32) -> u64
        requires { task < length self.now.tasks }
        ensures { result ≡ jitter_of self.now task }
    {
        self.stimulus_of(task).greatest_jitter()
    }

    /// Returns the greatest execution time of a job of a task in ticks: the sum over its runnables.
    pub fn time_of(&self, task: u32) -> u64
        requires { task < length self.now.tasks }
        ensures { result ≡ time_of self.now task }
    {
        self.look_ups.tasks.times[task as usize]
    }

    /// Returns the numbers of the tasks of a core, in file order.
    pub fn tasks_of_core(&self, core: u32) -> &[u32]
        requires { core < length self.now.cores }
        ensures tasks { result.now ≡ tasks_of_core self.now core }
        ensures within { All (λ task. task < length self.now.tasks) result.now }
    {
        self.look_ups.tasks.on_cores[core as usize].as_slice()
    }

    /// Returns the number of groups of a chain: one or more.
    pub fn group_count(&self, chain: u32) -> u32
        requires { chain < length self.now.chains }
        ensures count { result ≡ length (groups_at self.now chain) }
        ensures some { 0 < result }
    {
        self.look_ups.groups[chain as usize].len() as u32
    }

    /// Returns the group of a chain at index `place`, counted from 0.
    pub fn group(&self, chain: u32, place: u32) -> Group
        requires chain { chain < length self.now.chains }
        requires place { place < length (groups_at self.now chain) }
        ensures group { result ≡ slice_index_or (groups_at self.now chain) place no_group }
        ensures of_task { IsGroupOf self.now result }
    {
        self.look_ups.groups[chain as usize].as_slice()[place as usize]
    }

    /// Returns the groups of a chain, in order: at least one, and at most `MOST_STEPS`.
    pub fn groups(&self, chain: u32) -> &[Group]
        requires { chain < length self.now.chains }
        ensures groups { result.now ≡ groups_at self.now chain }
        ensures some { 0 < length result.now }
        ensures few { length result.now ≤ MOST_STEPS }
        ensures of_tasks { All (IsGroupOf self.now) result.now }
    {
        self.look_ups.groups[chain as usize].as_slice()
    }

    /// Finds the number of the core of this name, or `None` exactly where no core has it.
    pub fn core_named(&self, name: &Name) -> Option<u32>
        ensures number { result ≡ core_named self.now name.now }
        ensures within { IfSome result (λ core. core < length self.now.cores) }
    {
        let number = self.look_ups.names.cores.number_of(name)?;
        Some(number as u32)
    }

    /// Finds the number of the stimulus of this name, or `None` exactly where no stimulus has it.
    pub fn stimulus_named(&self, name: &Name) -> Option<u32>
        ensures number { result ≡ stimulus_named self.now name.now }
        ensures within { IfSome result (λ stimulus. stimulus < length self.now.stimuli) }
    {
        let number = self.look_ups.names.stimuli.number_of(name)?;
        Some(number as u32)
    }

    /// Finds the number of the task of this name, or `None` exactly where no task has it.
    pub fn task_named(&self, name: &Name) -> Option<u32>
        ensures number { result ≡ task_named self.now name.now }
        ensures within { IfSome result (λ task. task < length self.now.tasks) }
    {
        let number = self.look_ups.names.tasks.number_of(name)?;
        Some(number as u32)
    }

    /// Finds the number of the chain of this name, or `None` exactly where no chain has it.
    pub fn chain_named(&self, name: &Name) -> Option<u32>
        ensures number { result ≡ chain_named self.now name.now }
        ensures within { IfSome result (λ chain. chain < length self.now.chains) }
    {
        let number = self.look_ups.names.chains.number_of(name)?;
        Some(number as u32)
    }

    /// Finds the number of the requirement of this name, or `None` exactly where no requirement has
    /// it.
    pub fn requirement_named(&self, name: &Name) -> Option<u32>
        ensures number { result ≡ requirement_named self.now name.now }
        ensures within { IfSome result (λ requirement. requirement < length self.now.requirements) }
    {
        let number = self.look_ups.names.requirements.number_of(name)?;
        Some(number as u32)
    }

    /// Finds the runnable of this name, or `None` exactly where no runnable has it.
    pub fn step_named(&self, name: &Name) -> Option<Step>
        ensures found { is_some result ≡ has_name name.now (runnable_names (all_runnables self.now.tasks)) }
        ensures step { IfSome result (λ step. step ≡ step_named self.now name.now) }
        ensures within { IfSome result (IsStepOf self.now) }
    {
        let steps = &self.look_ups.steps;
        let number = steps.names.number_of(name)?;
        Some(steps.steps[number])
    }

    /// Copies the model, or fails with `NoMemory` where memory runs out.
    pub fn copy(&self, alloc: Global) -> Result<ValidModel, NoMemory>
        ensures { IfOk result (λ copy. copy ≡ self.now) }
    {
        let model = self.model.copy(alloc)?;
        match ValidModel::adopt(alloc, model) {
            Ok(copy) => Ok(copy),
            Err((_, no_memory)) => Err(no_memory),
        }
    }
}
