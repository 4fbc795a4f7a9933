//! A change of when tasks run, and the checks of deadlines after it, made before the change. Times
//! are in ticks.
ghost use Rattle.std.specs.Prelude.{◌≡◌, ◌<◌, ◌++◌, length};
ghost use Rattle.cl_model.specs.{Answers.{Answers, Passes}, ValidTasks.deadline_checks, Validity.IsValid};
ghost use Rattle.cl_edit.specs.Inner.Paces.{with_retiming, IsRetimingOf, is_on, limit_checks, limits_on, all_limits_on, priority_after, kind_after, given_after, pace_after};

use crate::check_new_task::task_key;
use crate::pairs::PairFault;
use cl_model::{Code, Key, ModelFault, StimulusKind, TaskPriority, ValidModel, refuse_when};

/// A change of when the tasks of a valid model run.
#[derive(Clone, Copy)]
pub(crate) enum Retiming<'a> {
    /// Another deadline of a task.
    Deadline {
        task: u32,
        deadline: Option<u64>,
    },
    /// Another kind of a stimulus.
    Kind {
        stimulus: u32,
        kind: StimulusKind,
    },
    /// Priorities that tasks get, and the priority of each task after them.
    Priorities {
        set: &'a [TaskPriority],
        after: &'a [u64],
    },
    /// Another core and priority of a task.
    Move {
        task: u32,
        core: u32,
        priority: u64,
    },
}

/// The properties of a task that the check of deadlines against tasks of higher priority looks at.
#[derive(Clone, Copy)]
pub(crate) struct Pace {
    pub priority: u64,
    pub deadline: u64,
    pub kind: StimulusKind,
}

/// Whether a task names a stimulus.
pub(crate) fn is_on(model: &ValidModel, stimulus: u32, task: u32) -> bool
    requires stimulus { stimulus < length model.now.stimuli }
    requires task { task < length model.now.tasks }
    ensures { result ≡ is_on model.now stimulus task }
{
    model.task(task).stimulus == model.plain().stimuli.as_slice()[stimulus as usize].name
}

/// Checks M32 and M33 for a task: its deadline doesn't exceed the least distance of its stimulus,
/// and it is later than the greatest jitter.
#[tactic(auto, using(cl_model::proofs::FirstRefusals::faults))]
fn check_limits(pace: Pace, task: u32) -> Result<(), ModelFault>
    ensures { Answers result (limit_checks pace task) tt }
{
    let is_late = pace.kind.least_distance() < pace.deadline;
    refuse_when(is_late, Code::M32, task_key(task as usize, Key::Deadline))?;
    let is_released_late = pace.deadline <= pace.kind.greatest_jitter();
    refuse_when(
        is_released_late,
        Code::M33,
        task_key(task as usize, Key::Stimulus),
    )?;
    Ok(())
}

impl Retiming<'_> {
    /// The priority of a task after the change.
    fn priority(self, model: &ValidModel, task: u32) -> u64
        requires change { IsRetimingOf model.now self }
        requires task { task < length model.now.tasks }
        ensures { result ≡ priority_after model.now self.entry task }
    {
        match self {
            Retiming::Priorities { after, .. } => after[task as usize],
            Retiming::Move {
                task: moved,
                priority,
                ..
            } => {
                if task == moved {
                    priority
                } else {
                    model.task(task).priority
                }
            }
            Retiming::Deadline { .. } | Retiming::Kind { .. } => model.task(task).priority,
        }
    }

    /// The kind of the stimulus of a task after the change.
    fn kind(self, model: &ValidModel, task: u32) -> StimulusKind
        requires change { IsRetimingOf model.now self }
        requires task { task < length model.now.tasks }
        ensures { result ≡ kind_after model.now self.entry task }
    {
        match self {
            Retiming::Kind { stimulus, kind } => {
                if is_on(model, stimulus, task) {
                    kind
                } else {
                    model.stimulus_of(task)
                }
            }
            Retiming::Deadline { .. } | Retiming::Priorities { .. } | Retiming::Move { .. } => {
                model.stimulus_of(task)
            }
        }
    }

    /// The deadline that a task has of its own after the change, if it has one.
    fn given(self, model: &ValidModel, task: u32) -> Option<u64>
        requires { task < length model.now.tasks }
        ensures { result ≡ given_after model.now self.entry task }
    {
        match self {
            Retiming::Deadline {
                task: set,
                deadline,
            } => {
                if task == set {
                    deadline
                } else {
                    model.task(task).deadline
                }
            }
            Retiming::Kind { .. } | Retiming::Priorities { .. } | Retiming::Move { .. } => {
                model.task(task).deadline
            }
        }
    }

    /// The properties of a task after the change that the check of deadlines looks at.
    pub(crate) fn pace(self, model: &ValidModel, task: u32) -> Pace
        requires change { IsRetimingOf model.now self }
        requires task { task < length model.now.tasks }
        ensures { result ≡ pace_after model.now self.entry task }
    {
        let kind = self.kind(model, task);
        let deadline = self.given(model, task).unwrap_or(kind.least_distance());
        Pace {
            priority: self.priority(model, task),
            deadline,
            kind,
        }
    }

    /// Checks M32 and M33 for a task after the change.
    fn check_limits(self, model: &ValidModel, task: u32) -> Result<(), ModelFault>
        requires change { IsRetimingOf model.now self }
        requires task { task < length model.now.tasks }
        ensures { Answers result (limit_checks (pace_after model.now self.entry task) task) tt }
    {
        check_limits(self.pace(model, task), task)
    }

    /// Checks M32 and M33 for a task after the change, if it names a stimulus.
    fn check_limits_on(self, model: &ValidModel, stimulus: u32, task: u32) -> Result<(), ModelFault>
        requires change { IsRetimingOf model.now self }
        requires stimulus { stimulus < length model.now.stimuli }
        requires task { task < length model.now.tasks }
        ensures { Answers result (limits_on model.now self.entry stimulus task) tt }
    {
        if is_on(model, stimulus, task) {
            self.check_limits(model, task)
        } else {
            Ok(())
        }
    }

    /// Checks M32 and M33 after the change, for each task that names a stimulus.
    #[tactic(auto, using(crate::proofs::LimitChecks::each_limit))]
    fn check_all_limits_on(self, model: &ValidModel, stimulus: u32) -> Result<(), ModelFault>
        requires change { IsRetimingOf model.now self }
        requires stimulus { stimulus < length model.now.stimuli }
        ensures { Answers result (all_limits_on model.now self.entry stimulus) tt }
    {
        for task in 0..model.tasks() {
            self.check_limits_on(model, stimulus, task)?;
        }
        Ok(())
    }

    /// Checks M32 and M33 for a task, and then M42 for all tasks, after the change.
    #[tactic(auto, using(cl_model::proofs::FirstRefusals::faults))]
    pub fn check_task(self, model: &ValidModel, task: u32) -> Result<(), ModelFault>
        requires valid { IsValid model.now }
        requires change { IsRetimingOf model.now self }
        requires task { task < length model.now.tasks }
        ensures { Passes result
            (limit_checks (pace_after model.now self.entry task) task ++ deadline_checks (with_retiming model.now self.entry)) }
    {
        self.check_limits(model, task)?;
        self.check_pairs(model, PairFault::Outpaced)
    }

    /// Checks M32 and M33 for each task that names a stimulus, and then M42 for all tasks, after
    /// the change.
    #[tactic(auto, using(cl_model::proofs::FirstRefusals::faults))]
    pub fn check_stimulus(self, model: &ValidModel, stimulus: u32) -> Result<(), ModelFault>
        requires valid { IsValid model.now }
        requires change { IsRetimingOf model.now self }
        requires stimulus { stimulus < length model.now.stimuli }
        ensures { Passes result
            (all_limits_on model.now self.entry stimulus ++ deadline_checks (with_retiming model.now self.entry)) }
    {
        self.check_all_limits_on(model, stimulus)?;
        self.check_pairs(model, PairFault::Outpaced)
    }
}
