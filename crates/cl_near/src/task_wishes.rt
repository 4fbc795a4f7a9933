//! What is wished of the jobs of a run of a task. Times are in ticks.
ghost use Rattle.std.specs.Prelude.{◌<◌, length};

use crate::sporadic::Distances;
use crate::task_plan::{TaskPlan, is_above};
use crate::times::{Time, time_of};
use cl_gen::Wishes;
use cl_model::ValidModel;

/// What is wished of the jobs of a run of a task.
#[derive(Drop)]
pub(crate) struct TaskWishes<'a> {
    pub(crate) model: &'a ValidModel,
    pub(crate) plan: &'a TaskPlan,
}

impl<'a> TaskWishes<'a> {
    /// Checks whether a task stands above the one of the run.
    fn is_above(&self, task: u32) -> bool
        requires { task < length self.now.model.now.tasks }
    {
        self.plan.task < self.model.tasks() && is_above(self.model, task, self.plan.task)
    }

    /// Checks whether a job waits for the window to begin, as far as its jitter lets it.
    fn waits(&self, task: u32, arrival: u64) -> bool
        requires { task < length self.now.model.now.tasks }
    {
        if task == self.plan.task {
            arrival == self.plan.arrival
        } else {
            self.is_above(task)
        }
    }

    /// Finds which times the jobs of a task take.
    fn time_of_jobs(&self, task: u32) -> Time
        requires { task < length self.now.model.now.tasks }
    {
        if task == self.plan.task || self.plan.is_blocker(task) || self.is_above(task) {
            Time::Greatest
        } else {
            Time::Least
        }
    }

    /// Finds when the next job of a sporadic task arrives, which may be from `low` on. Only a first
    /// job may arrive at 0.
    fn sporadic_arrival(&self, task: u32, distances: Distances, low: u64) -> u64 {
        if low == 0 {
            return distances.first_towards(self.plan.aims.first(task));
        }
        let last = low.saturating_sub(distances.least);
        distances.next_towards(last, self.plan.aims.after(task, last))
    }

    /// Finds when the next job of a task arrives, which may be from `low` on.
    fn arrival_of(&self, task: u32, low: u64) -> u64
        requires { task < length self.now.model.now.tasks }
    {
        match Distances::of(self.model.stimulus_of(task)) {
            Some(distances) => self.sporadic_arrival(task, distances, low),
            None => low,
        }
    }

    /// Finds when a job of a task is released.
    fn release_of(&self, task: u32, arrival: u64) -> u64
        requires { task < length self.now.model.now.tasks }
    {
        if !self.waits(task, arrival) {
            return arrival;
        }
        let latest = arrival.saturating_add(self.model.jitter_of(task));
        arrival.max(latest.min(self.plan.start))
    }
}

impl<'a> Wishes for TaskWishes<'a> {
    fn arrival(&mut self, task: u32, low: u64, _high: u64) -> u64 {
        if task < self.model.tasks() {
            self.arrival_of(task, low)
        } else {
            low
        }
    }

    fn release(&mut self, task: u32, arrival: u64) -> u64 {
        if task < self.model.tasks() {
            self.release_of(task, arrival)
        } else {
            arrival
        }
    }

    fn time(&mut self, task: u32, _arrival: u64, place: u32) -> u64 {
        if task < self.model.tasks() {
            let time = self.time_of_jobs(task);
            time_of(self.model, task, place, time)
        } else {
            0
        }
    }
}
