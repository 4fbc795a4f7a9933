//! Changes of a valid model that stays valid. The tables beside it are updated, not made anew.
//! Times are in ticks.
ghost use Rattle.std.specs.Prelude.{◌≡◌, ◌<◌, length, All};
ghost use Rattle.cl_model.specs.{Groups.IsStepOf, Changes.{with_range, with_whole, with_kind, with_deadline, with_priorities, with_access}, Validity.IsValid};

use crate::changes::TaskPriority;
use crate::group::Step;
use crate::look_ups::greatest_time;
use crate::stimulus::StimulusKind;
use crate::task::AccessKind;
use crate::valid_model::ValidModel;

impl ValidModel {
    /// Returns the model in which a runnable has this least and this greatest execution time.
    pub fn with_range(self, step: Step, least: u64, greatest: u64) -> ValidModel
        requires step { IsStepOf self step }
        requires valid { IsValid (with_range self step least greatest) }
        ensures { result ≡ with_range self step least greatest }
    {
        let mut model = self.model;
        let mut look_ups = self.look_ups;
        let task = step.task as usize;
        model.set_range(step, least, greatest);
        look_ups.tasks.times[task] = greatest_time(&model.tasks.as_slice()[task]);
        ValidModel { model, look_ups }
    }

    /// Returns the model in which a runnable can't be preempted once it has begun, or can, as
    /// `whole` says.
    pub fn with_whole(self, step: Step, whole: bool) -> ValidModel
        requires step { IsStepOf self step }
        requires valid { IsValid (with_whole self step whole) }
        ensures { result ≡ with_whole self step whole }
    {
        let mut model = self.model;
        model.set_whole(step, whole);
        ValidModel {
            model,
            look_ups: self.look_ups,
        }
    }

    /// Returns the model in which a stimulus is of this kind.
    pub fn with_kind(self, stimulus: u32, kind: StimulusKind) -> ValidModel
        requires stimulus { stimulus < length self.stimuli }
        requires valid { IsValid (with_kind self stimulus (λ _. kind)) }
        ensures { result ≡ with_kind self stimulus (λ _. kind) }
    {
        let mut model = self.model;
        model.set_kind(stimulus as usize, kind);
        ValidModel {
            model,
            look_ups: self.look_ups,
        }
    }

    /// Returns the model in which a task has this deadline from arrival, or none of its own where
    /// `deadline` is `None`.
    pub fn with_deadline(self, task: u32, deadline: Option<u64>) -> ValidModel
        requires task { task < length self.tasks }
        requires valid { IsValid (with_deadline self task deadline) }
        ensures { result ≡ with_deadline self task deadline }
    {
        let mut model = self.model;
        model.set_deadline(task as usize, deadline);
        ValidModel {
            model,
            look_ups: self.look_ups,
        }
    }

    /// Returns the model in which tasks have these priorities, set one after the other.
    pub fn with_priorities(self, priorities: &[TaskPriority]) -> ValidModel
        requires tasks { All (λ it. it.task < length self.tasks) priorities.now }
        requires valid { IsValid (with_priorities self priorities.now) }
        ensures { result ≡ with_priorities self priorities.now }
    {
        let mut model = self.model;
        model.set_priorities(priorities);
        ValidModel {
            model,
            look_ups: self.look_ups,
        }
    }

    /// Returns the model in which a task has this kind of access.
    pub fn with_access(self, task: u32, access: AccessKind) -> ValidModel
        requires task { task < length self.tasks }
        requires valid { IsValid (with_access self task access) }
        ensures { result ≡ with_access self task access }
    {
        let mut model = self.model;
        model.set_access(task as usize, access);
        ValidModel {
            model,
            look_ups: self.look_ups,
        }
    }
}
