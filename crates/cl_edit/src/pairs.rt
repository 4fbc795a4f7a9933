//! The search for the first task that is refused beside another one of its core after a change of
//! when tasks run, made before the change. Times are in ticks.
ghost use Rattle.std.specs.Prelude.{◌≡◌, ℕ, ◌<◌, true, length, All};
ghost use Rattle.cl_model.specs.{Answers.Passes, ByNumber.core_of, Validity.IsValid};
ghost use Rattle.cl_edit.specs.{Changing.IsPriorityOf, Inner.{Paces.{with_retiming, IsRetimingOf, is_on, core_after, HasOthers}, Pairs.{is_refused_beside, refusal_at, pair_checks, least_of, noted, IsAtMost, IsRefused, HasSeen, IsFirstRefused}}};

use crate::check_new_task::task_key;
use crate::pace::{Pace, Retiming, is_on};
use cl_model::{Code, Key, ModelFault, TaskPriority, ValidModel};
use cl_valid::spans_too_many;

/// What a task may be refused for beside another one of its core.
#[derive(Clone, Copy)]
pub(crate) enum PairFault {
    /// M31: the other one has its priority and stands earlier.
    Clash,
    /// M42: its deadline spans too many least distances of the other one, which has a higher
    /// priority.
    Outpaced,
}

impl PairFault {
    /// Whether a task is refused beside another one of its core.
    fn is_refused(self, task: u32, own: Pace, other: u32, its: Pace) -> bool
        ensures { result ≡ is_refused_beside self task own other its }
    {
        match self {
            PairFault::Clash => other < task && its.priority == own.priority,
            PairFault::Outpaced => {
                own.priority < its.priority && spans_too_many(own.deadline, its.kind)
            }
        }
    }

    /// The refusal of a task.
    fn refusal(self, task: u32) -> ModelFault
        ensures { result ≡ ModelFault.Refused (refusal_at self task) }
    {
        match self {
            PairFault::Clash => {
                ModelFault::refused(Code::M31, task_key(task as usize, Key::Priority))
            }
            PairFault::Outpaced => {
                ModelFault::refused(Code::M42, task_key(task as usize, Key::Deadline))
            }
        }
    }
}

fn least_of(first: Option<u32>, number: u32) -> Option<u32>
    ensures { result ≡ least_of first number }
{
    match first {
        Some(first) if first <= number => Some(first),
        _ => Some(number),
    }
}

/// Returns the lesser of `first` and a number if the test passes, and else `first`.
fn noted(first: Option<u32>, test: bool, number: u32) -> Option<u32>
    ensures { result ≡ noted first test number }
{
    if test { least_of(first, number) } else { first }
}

impl Retiming<'_> {
    /// Returns the first task of `first` and of those of two tasks of one core that are refused
    /// beside the other one after the change.
    fn first_of_pair(
        self,
        model: &ValidModel,
        fault: PairFault,
        first: Option<u32>,
        task: u32,
        other: u32,
    ) -> Option<u32>
        requires valid { IsValid model.now }
        requires change { IsRetimingOf model.now self }
        requires task { task < length model.now.tasks }
        requires other { other < length model.now.tasks }
        requires core { core_of (with_retiming model.now self) task
            ≡ core_of (with_retiming model.now self) other }
        requires first { IsRefused fault (with_retiming model.now self) first }
        ensures first { IsRefused fault (with_retiming model.now self.entry) result }
        ensures kept { (k : ℕ) → IsAtMost first k → IsAtMost result k }
        ensures seen { HasSeen fault (with_retiming model.now self.entry) result task other }
    {
        let own = self.pace(model, task);
        let its = self.pace(model, other);
        let first = noted(first, fault.is_refused(task, own, other, its), task);
        noted(first, fault.is_refused(other, its, task, own), other)
    }

    /// Returns the first task of `first` and of those that are refused after the change in a pair
    /// of this task and another one of its core.
    fn first_beside(
        self,
        model: &ValidModel,
        fault: PairFault,
        first: Option<u32>,
        task: u32,
        core: u32,
    ) -> Option<u32>
        requires valid { IsValid model.now }
        requires change { IsRetimingOf model.now self }
        requires task { task < length model.now.tasks }
        requires core { core < length model.now.cores }
        requires own { core_after model.now self task ≡ core }
        requires others { HasOthers model.now self task core }
        requires first { IsRefused fault (with_retiming model.now self) first }
        ensures first { IsRefused fault (with_retiming model.now self.entry) result }
        ensures kept { (k : ℕ) → IsAtMost first k → IsAtMost result k }
        ensures seen { (j : ℕ) → HasSeen fault (with_retiming model.now self.entry) result task j }
    {
        let others = model.tasks_of_core(core);
        let mut first = first;
        for other in others {
            first = self.first_of_pair(model, fault, first, task, *other);
        }
        first
    }

    /// Finds the first task that is refused after the change in a pair of a task that names a
    /// stimulus and another one of its core.
    fn first_on(self, model: &ValidModel, fault: PairFault, stimulus: u32) -> Option<u32>
        requires valid { IsValid model.now }
        requires change { IsRetimingOf model.now self }
        requires stimulus { stimulus < length model.now.stimuli }
        requires cores { (k : ℕ) → core_after model.now self k ≡ core_of model.now k }
        ensures first { IsRefused fault (with_retiming model.now self.entry) result }
        ensures seen { (k j : ℕ) → k < length model.now.tasks → is_on model.now stimulus k ≡ true
            → HasSeen fault (with_retiming model.now self.entry) result k j }
    {
        let mut first = None;
        for task in 0..model.tasks() {
            if is_on(model, stimulus, task) {
                first = self.first_beside(model, fault, first, task, model.core_of(task));
            }
        }
        first
    }

    /// Finds the first task that is refused after the change in a pair of a task that gets a
    /// priority and another one of its core.
    fn first_of_set(self, model: &ValidModel, fault: PairFault, set: &[TaskPriority]) -> Option<u32>
        requires valid { IsValid model.now }
        requires change { IsRetimingOf model.now self }
        requires set { All (IsPriorityOf model.now) set.now }
        requires cores { (k : ℕ) → core_after model.now self k ≡ core_of model.now k }
        ensures first { IsRefused fault (with_retiming model.now self.entry) result }
        ensures seen { All (λ it. (j : ℕ) → HasSeen fault (with_retiming model.now self.entry) result it.task j) set.now }
    {
        let mut first = None;
        for it in set {
            first = self.first_beside(model, fault, first, it.task, model.core_of(it.task));
        }
        first
    }

    /// Finds the first task that is refused beside another one of its core after the change.
    pub(crate) fn first_refused(self, model: &ValidModel, fault: PairFault) -> Option<u32>
        requires valid { IsValid model.now }
        requires change { IsRetimingOf model.now self }
        ensures { IsFirstRefused fault (with_retiming model.now self.entry) result }
    {
        match self {
            Retiming::Deadline { task, .. } => {
                self.first_beside(model, fault, None, task, model.core_of(task))
            }
            Retiming::Kind { stimulus, .. } => self.first_on(model, fault, stimulus),
            Retiming::Priorities { set, .. } => self.first_of_set(model, fault, set),
            Retiming::Move { task, core, .. } => self.first_beside(model, fault, None, task, core),
        }
    }

    /// Checks after the change that no task is refused beside another one of its core.
    pub(crate) fn check_pairs(self, model: &ValidModel, fault: PairFault) -> Result<(), ModelFault>
        requires valid { IsValid model.now }
        requires change { IsRetimingOf model.now self }
        ensures { Passes result (pair_checks fault (with_retiming model.now self.entry)) }
    {
        match self.first_refused(model, fault) {
            Some(task) => Err(fault.refusal(task)),
            None => Ok(()),
        }
    }
}
