//! What is wished of the jobs of a run of a chain. Times are in ticks.
ghost use Rattle.std.specs.Prelude.{◌<◌, length};

use crate::accesses::{Access, AccessOfCore};
use crate::chain_plan::ChainPlan;
use crate::sporadic::Distances;
use crate::times::{Time, time_of};
use cl_gen::Wishes;
use cl_model::ValidModel;

/// How long the jobs of a run of a chain take.
#[derive(Clone, Copy, PartialEq, Eq)]
pub(crate) enum Load {
    /// The least times up to a read that is to be early, and the greatest up to a write that is to
    /// be late.
    AsPlanned,
    /// The greatest times.
    Heavy,
}

/// What is wished of the jobs of a run of a chain.
#[derive(Drop)]
pub(crate) struct ChainWishes<'a> {
    pub(crate) model: &'a ValidModel,
    pub(crate) plan: &'a ChainPlan,
    pub(crate) load: Load,
}

/// Returns when a job is released that arrives on the way to an access of its core.
fn release_towards(next: AccessOfCore, arrival: u64, jitter: u64) -> u64 {
    let latest = arrival.saturating_add(jitter);
    match next.access {
        Access::Write { begin } => latest.min(arrival.max(begin)),
        Access::Read => {
            if latest > next.moment {
                latest
            } else {
                arrival
            }
        }
    }
}

/// Returns which times a job takes on the way to an access of its core, if there is one.
fn time_towards(next: Option<AccessOfCore>) -> Time {
    match next {
        Some(
            AccessOfCore {
                access: Access::Read,
                ..
            },
        ) => Time::Least,
        _ => Time::Greatest,
    }
}

impl<'a> ChainWishes<'a> {
    /// Finds the first access on the core of a task after the arrival of a job of it.
    fn next_access(&self, task: u32, arrival: u64) -> Option<AccessOfCore>
        requires { task < length self.now.model.now.tasks }
    {
        self.plan
            .jobs
            .accesses
            .after(self.model.core_of(task), arrival)
    }

    /// Checks whether a task is one of the chain.
    fn is_of_chain(&self, task: u32) -> bool {
        self.plan.jobs.taken.first(task).is_some()
    }

    /// Finds the first moment at which a job of a task is to arrive.
    fn first_aim(&self, task: u32) -> Option<u64>
        requires { task < length self.now.model.now.tasks }
    {
        if self.is_of_chain(task) {
            self.plan.jobs.arrivals.first(task)
        } else {
            self.plan.jobs.begins.first(self.model.core_of(task))
        }
    }

    /// Finds the first moment after an arrival at which a job of a task is to arrive.
    fn next_aim(&self, task: u32, arrival: u64) -> Option<u64>
        requires { task < length self.now.model.now.tasks }
    {
        if self.is_of_chain(task) {
            self.plan.jobs.arrivals.after(task, arrival)
        } else {
            self.plan
                .jobs
                .begins
                .after(self.model.core_of(task), arrival)
        }
    }

    /// Finds when the next job of a sporadic task arrives, which may be from `low` on. Only a first
    /// job may arrive at 0.
    fn sporadic_arrival(&self, task: u32, distances: Distances, low: u64) -> u64
        requires { task < length self.now.model.now.tasks }
    {
        if low == 0 {
            return distances.first_towards(self.first_aim(task));
        }
        let last = low.saturating_sub(distances.least);
        distances.next_towards(last, self.next_aim(task, last))
    }

    /// Finds when the next job of a task arrives, which may be from `low` on.
    fn arrival_of(&self, task: u32, low: u64) -> u64
        requires { task < length self.now.model.now.tasks }
    {
        match Distances::of(self.model.stimulus_of(task)) {
            Some(distances) => self.sporadic_arrival(task, distances, low),
            None => low,
        }
    }

    /// Finds when a job of a task is released.
    fn release_of(&self, task: u32, arrival: u64) -> u64
        requires { task < length self.now.model.now.tasks }
    {
        let jitter = self.model.jitter_of(task);
        if self.plan.jobs.taken.has(task, arrival) {
            return arrival.saturating_add(jitter);
        }
        if self.plan.jobs.missed.has(task, arrival) {
            return arrival;
        }
        match self.next_access(task, arrival) {
            Some(next) => release_towards(next, arrival, jitter),
            None => arrival,
        }
    }

    /// Finds which times a job of a task takes.
    fn time_of_job(&self, task: u32, arrival: u64) -> Time
        requires { task < length self.now.model.now.tasks }
    {
        match self.load {
            Load::AsPlanned => time_towards(self.next_access(task, arrival)),
            Load::Heavy => Time::Greatest,
        }
    }
}

impl<'a> Wishes for ChainWishes<'a> {
    fn arrival(&mut self, task: u32, low: u64, _high: u64) -> u64 {
        if task < self.model.tasks() {
            self.arrival_of(task, low)
        } else {
            low
        }
    }

    fn release(&mut self, task: u32, arrival: u64) -> u64 {
        if task < self.model.tasks() {
            self.release_of(task, arrival)
        } else {
            arrival
        }
    }

    fn time(&mut self, task: u32, arrival: u64, place: u32) -> u64 {
        if task < self.model.tasks() {
            let time = self.time_of_job(task, arrival);
            time_of(self.model, task, place, time)
        } else {
            0
        }
    }
}
