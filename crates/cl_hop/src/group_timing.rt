//! What the bounds know of a group, and lags and hops between groups. Times are in ticks.
ghost use Rattle.std.specs.Prelude.{◌≡◌, ℕ, ◌^◌, ◌<◌, ◌≤◌, length};
ghost use Rattle.cl_model.specs.{declared.limits.TheConstants.MOST_TICKS, Groups.IsGroupOf, ByNumber.task_at, Validity.IsValid, Kinds.is_timed};
ghost use Rattle.cl_runs.specs.{SystemOf.system_of, TaskTiming.timing_at, ExecutionTimes.greatest_execution};
ghost use Rattle.cl_stim.specs.Integers.{IsIntegerWithin};
ghost use Rattle.cl_comm.specs.Windows.{window_at};
ghost use Rattle.cl_hop.specs.Hops.{timing_in, group_timing, IsNear, saves, lag, hop, forward_hop, backward_hop};

use cl_comm::{Access, AnyAccess, Window, spot_of};
use cl_model::{Group, ValidModel};
use cl_stim::{AnyStimulus, Arrivals};

/// What the bounds know of a group. Times are in ticks.
#[derive(Clone, Copy, Default)]
pub struct GroupTiming {
    pub(crate) task: u32,
    pub(crate) core: u32,
    pub(crate) priority: u64,
    /// Whether its task is timed.
    pub(crate) is_timed: bool,
    /// How long after its arrival a job is released at most.
    pub(crate) jitter: u64,
    /// The greatest distance between two consecutive arrivals.
    pub(crate) distance: u64,
    /// The earliest moment of its read, from the arrival of its job.
    pub(crate) read: u64,
    /// The latest moment of its write, from the arrival of its job.
    pub(crate) write: u64,
}

/// Computes the window of a runnable of a task with this response.
fn access_window(model: &ValidModel, task: u32, place: u32, response: u64) -> Window
    requires is_task { task < length model.now.tasks }
    requires is_runnable { place < length (task_at model.now task).runnables }
    requires holds_execution { greatest_execution (timing_at (system_of model.now) task)
        ≤ response }
    requires by_deadline { response ≤ (timing_at (system_of model.now) task).deadline }
    ensures { result ≡ window_at (timing_at (system_of model.now) task) place response }
{
    let access = model.task(task).access;
    AnyAccess::of(access).window(spot_of(model, task, place), response)
}

impl GroupTiming {
    /// Puts together what the bounds know of a group of a valid model, if each of its jobs reads
    /// `read` ticks after its arrival or later, and has written `write` ticks after it.
    pub fn in_window(model: &ValidModel, group: Group, read: u64, write: u64) -> GroupTiming
        requires group { IsGroupOf model.now group }
        ensures timing { result ≡ timing_in (system_of model.now) group read write }
        ensures near { read ≤ MOST_TICKS → write ≤ MOST_TICKS → IsNear result }
        ensures valid { IsValid model.now }
    {
        let task = model.task(group.task);
        let stimulus = AnyStimulus::of(model.stimulus_of(group.task));
        GroupTiming {
            task: group.task,
            core: model.core_of(group.task),
            priority: task.priority,
            is_timed: task.access.is_timed(),
            jitter: stimulus.jitter(),
            distance: stimulus.greatest_gap(),
            read,
            write,
        }
    }

    /// Puts together what the bounds know of a group of a valid model, if each job of its task
    /// finishes at most `response` ticks after its arrival.
    pub fn of(model: &ValidModel, group: Group, response: u64) -> GroupTiming
        requires group { IsGroupOf model.now group }
        requires holds_execution { greatest_execution (timing_at (system_of model.now) group.task)
            ≤ response }
        requires by_deadline { response ≤ (timing_at (system_of model.now) group.task).deadline }
        ensures timing { result ≡ group_timing (system_of model.now)
            (λ (task : ℕ). response) group }
        ensures near { IsNear result }
        ensures valid { IsValid model.now }
    {
        let read = access_window(model, group.task, group.first, response).rlo;
        let write = access_window(model, group.task, group.last, response).whi;
        GroupTiming::in_window(model, group, read, write)
    }

    /// Returns the number of its task.
    pub fn task(&self) -> u32
        ensures { result ≡ self.now.task }
    {
        self.task
    }

    /// Checks whether a hop from this writer to the reader saves the writer's time: both are on one
    /// core, the writer has the higher priority, and neither is timed, so the reader can't read
    /// while a job of the writer is pending.
    pub fn saves(&self, reader: &GroupTiming) -> bool
        ensures { result ≡ saves self.now reader.now }
    {
        self.core == reader.core
            && self.priority > reader.priority
            && !self.is_timed
            && !reader.is_timed
    }

    /// Computes the lag of the hop from this writer to the reader, in ticks: a job of the reader
    /// that reads before a job of the writer writes arrives less than the lag after it. It is 1
    /// where both are of one task, the writer's jitter less the reader's earliest read where the
    /// hop saves the writer's time, and else the writer's latest write less the reader's earliest
    /// read.
    pub fn lag(&self, reader: &GroupTiming) -> i128
        ensures lag { result ≡ lag self.now reader.now }
        ensures fits { IsIntegerWithin (2 ^ 64) result }
        ensures near { IsNear self.now → IsNear reader.now → IsIntegerWithin MOST_TICKS result }
    {
        if self.task == reader.task {
            1
        } else if self.saves(reader) {
            i128::from(self.jitter) - i128::from(reader.read)
        } else {
            i128::from(self.write) - i128::from(reader.read)
        }
    }

    /// Computes the hop from this writer to the reader: a distance between arrivals, less 1 tick,
    /// and the lag.
    fn hop(&self, reader: &GroupTiming, distance: u64) -> i128
        ensures hop { result ≡ hop distance self.now reader.now }
        ensures near { IsIntegerWithin (2 ^ 65) result }
    {
        i128::from(distance) - 1 + self.lag(reader)
    }

    /// Computes the forward hop from this writer to the reader, in ticks: over the reader's
    /// greatest distance between arrivals.
    pub fn forward_hop(&self, reader: &GroupTiming) -> i128
        ensures hop { result ≡ forward_hop self.now reader.now }
        ensures near { IsIntegerWithin (2 ^ 65) result }
    {
        self.hop(reader, reader.distance)
    }

    /// Computes the backward hop from this writer to the reader, in ticks: over the writer's
    /// greatest distance between arrivals.
    pub fn backward_hop(&self, reader: &GroupTiming) -> i128
        ensures hop { result ≡ backward_hop self.now reader.now }
        ensures near { IsIntegerWithin (2 ^ 65) result }
    {
        self.hop(reader, self.distance)
    }

    /// Returns the greatest distance between two consecutive arrivals, in ticks.
    pub fn distance(&self) -> u64
        ensures { result ≡ self.now.distance }
    {
        self.distance
    }

    /// Returns the earliest moment of its read, in ticks from the arrival of its job.
    pub fn read(&self) -> u64
        ensures { result ≡ self.now.read }
    {
        self.read
    }

    /// Returns the latest moment of its write, in ticks from the arrival of its job.
    pub fn write(&self) -> u64
        ensures { result ≡ self.now.write }
    {
        self.write
    }
}
