//! Changes of a model in place. What is changed is given by its number. Times are in ticks.
ghost use Rattle.std.specs.Prelude.{◌≡◌, ◌<◌, length, All};
ghost use Rattle.cl_model.specs.{Groups.IsStepOf, Changes.{with_range, with_whole, with_kind, with_deadline, with_priority, with_priorities, with_place, with_access, without_task, without_chain, with_requirement, without_requirement}};

use crate::chain::RequirementDef;
use crate::group::Step;
use crate::model::SystemModel;
use crate::name::Name;
use crate::stimulus::StimulusKind;
use crate::task::AccessKind;

/// The priority that a task, given by its number, gets.
#[derive(Clone, Copy, PartialEq, Eq)]
pub struct TaskPriority {
    pub task: u32,
    pub priority: u64,
}

impl SystemModel {
    /// Sets the least and the greatest execution time of a runnable.
    pub fn set_range(&mut self, step: Step, least: u64, greatest: u64)
        requires { IsStepOf self.old step }
        ensures { self.new ≡ with_range self.old step least greatest }
    {
        let task = self.tasks.item_mut(step.task as usize);
        let runnable = task.runnables.item_mut(step.place as usize);
        runnable.least = least;
        runnable.greatest = greatest;
    }

    /// Sets whether a runnable can't be preempted once it has begun.
    pub fn set_whole(&mut self, step: Step, whole: bool)
        requires { IsStepOf self.old step }
        ensures { self.new ≡ with_whole self.old step whole }
    {
        let task = self.tasks.item_mut(step.task as usize);
        let runnable = task.runnables.item_mut(step.place as usize);
        runnable.whole = whole;
    }

    /// Sets the kind of a stimulus.
    pub fn set_kind(&mut self, stimulus: usize, kind: StimulusKind)
        requires { stimulus < length self.old.stimuli }
        ensures { self.new ≡ with_kind self.old stimulus (λ _. kind) }
    {
        self.stimuli.item_mut(stimulus).kind = kind;
    }

    /// Sets the deadline of a task from arrival, or removes it where `deadline` is `None`.
    pub fn set_deadline(&mut self, task: usize, deadline: Option<u64>)
        requires { task < length self.old.tasks }
        ensures { self.new ≡ with_deadline self.old task deadline }
    {
        self.tasks.item_mut(task).deadline = deadline;
    }

    fn set_priority(&mut self, task: usize, priority: u64)
        requires { task < length self.old.tasks }
        ensures { self.new ≡ with_priority self.old task priority }
    {
        self.tasks.item_mut(task).priority = priority;
    }

    /// Sets the priorities of tasks, one after the other.
    pub fn set_priorities(&mut self, priorities: &[TaskPriority])
        requires { All (λ it. it.task < length self.old.tasks) priorities.now }
        ensures { self.new ≡ with_priorities self.old priorities.now }
    {
        for it in priorities {
            self.set_priority(it.task as usize, it.priority);
        }
    }

    /// Sets the core and the priority of a task.
    pub fn set_place(&mut self, task: usize, core: &Name, priority: u64)
        requires { task < length self.old.tasks }
        ensures { self.new ≡ with_place self.old task core.now priority }
    {
        let task = self.tasks.item_mut(task);
        task.core = core.copy();
        task.priority = priority;
    }

    /// Sets the kind of access of a task.
    pub fn set_access(&mut self, task: usize, access: AccessKind)
        requires { task < length self.old.tasks }
        ensures { self.new ≡ with_access self.old task access }
    {
        self.tasks.item_mut(task).access = access;
    }

    /// Removes a task. The others keep their order.
    pub fn drop_task(&mut self, task: usize)
        requires { task < length self.old.tasks }
        ensures { self.new ≡ without_task self.old task }
    {
        let _dropped = self.tasks.remove(task);
    }

    /// Removes a chain. The others keep their order.
    pub fn drop_chain(&mut self, chain: usize)
        requires { chain < length self.old.chains }
        ensures { self.new ≡ without_chain self.old chain }
    {
        let _dropped = self.chains.remove(chain);
    }

    /// Puts a requirement in the place of another one.
    pub fn set_requirement(&mut self, number: usize, requirement: RequirementDef)
        requires { number < length self.old.requirements }
        ensures { self.new ≡ with_requirement self.old number requirement }
    {
        *self.requirements.item_mut(number) = requirement;
    }

    /// Removes a requirement. The others keep their order.
    pub fn drop_requirement(&mut self, requirement: usize)
        requires { requirement < length self.old.requirements }
        ensures { self.new ≡ without_requirement self.old requirement }
    {
        let _dropped = self.requirements.remove(requirement);
    }
}
