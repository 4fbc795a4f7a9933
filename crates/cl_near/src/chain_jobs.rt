//! What the jobs of a run of a chain keep to. Times are in ticks.
ghost use Rattle.std.specs.Prelude.{◌≡◌, ◌<◌, length, All};
ghost use Rattle.cl_model.specs.Groups.{IsGroupOf};

use crate::accesses::{Access, AccessOfCore, Accesses};
use crate::moments::{Moments, tick_of};
use cl_hop::GroupTiming;
use cl_model::{Group, RequirementKind, ValidModel};
use cl_phase::WholeWalk;
use cl_time::NoMemory;
use std::alloc::Global;

/// What the jobs of a run of a chain keep to. It is found once it is put in order.
#[derive(Drop)]
pub(crate) struct ChainJobs {
    /// The arrivals of the jobs that just miss, by their tasks.
    pub(crate) missed: Moments,
    /// The arrivals of the jobs that take, by their tasks.
    pub(crate) taken: Moments,
    /// The arrivals of both, by their tasks.
    pub(crate) arrivals: Moments,
    /// When the jobs that take are released at the latest, by their cores.
    pub(crate) begins: Moments,
    /// When the jobs that just miss read and those that take have written, by their cores.
    pub(crate) accesses: Accesses,
}

impl ChainJobs {
    /// Starts where no job keeps to anything. Takes no memory.
    pub(crate) fn new(alloc: Global) -> ChainJobs {
        ChainJobs {
            missed: Moments::new(alloc),
            taken: Moments::new(alloc),
            arrivals: Moments::new(alloc),
            begins: Moments::new(alloc),
            accesses: Accesses::new(alloc),
        }
    }

    /// Plans the job of a task that just misses and reads `read` ticks after its arrival.
    fn add_missed(
        &mut self,
        model: &ValidModel,
        task: u32,
        arrival: u64,
        read: u64,
    ) -> Result<(), NoMemory>
        requires task { task < length model.now.tasks }
    {
        self.missed.note(task, arrival)?;
        self.arrivals.note(task, arrival)?;
        self.accesses.add(AccessOfCore {
            core: model.core_of(task),
            moment: arrival.saturating_add(read),
            access: Access::Read,
        })
    }

    /// Plans the job of a task that takes and has written `write` ticks after its arrival.
    fn add_taken(
        &mut self,
        model: &ValidModel,
        task: u32,
        arrival: u64,
        write: u64,
    ) -> Result<(), NoMemory>
        requires task { task < length model.now.tasks }
    {
        let core = model.core_of(task);
        let begin = arrival.saturating_add(model.jitter_of(task));
        self.taken.note(task, arrival)?;
        self.arrivals.note(task, arrival)?;
        self.begins.note(core, begin)?;
        self.accesses.add(AccessOfCore {
            core,
            moment: arrival.saturating_add(write),
            access: Access::Write { begin },
        })
    }

    /// Plans the jobs of a walk, two of each group but for the first of a delay: there no job just
    /// misses.
    pub(crate) fn add_walk(
        &mut self,
        model: &ValidModel,
        groups: &[Group],
        timings: &[GroupTiming],
        walk: &WholeWalk,
        kind: RequirementKind,
    ) -> Result<(), NoMemory>
        requires of_tasks { All (IsGroupOf model.now) groups.now }
        requires timings { length timings.now ≡ length groups.now }
        requires missed { length walk.now.missed ≡ length groups.now }
        requires taken { length walk.now.taken ≡ length groups.now }
    {
        for place in 0..groups.len() {
            let task = groups[place].task;
            if place > 0 || !kind.is_delay() {
                let missed = tick_of(walk.missed.as_slice()[place]);
                self.add_missed(model, task, missed, timings[place].read())?;
            }
            let taken = tick_of(walk.taken.as_slice()[place]);
            self.add_taken(model, task, taken, timings[place].write())?;
        }
        Ok(())
    }

    /// Puts all in order, so that it is found.
    pub(crate) fn put_in_order(&mut self) {
        self.missed.put_in_order();
        self.taken.put_in_order();
        self.arrivals.put_in_order();
        self.begins.put_in_order();
        self.accesses.put_in_order();
    }
}
