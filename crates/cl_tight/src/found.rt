//! Numbers of the runnables of a model, as far as they have been found.
ghost use Rattle.std.specs.Prelude.{◌≡◌, ◌≢◌, ℕ, None, IfOk, IfSome, All};
ghost use Rattle.cl_tight.specs.Found.{number_found, AreFoundNumbersOf};

use cl_model::{List, ValidModel};
use cl_time::NoMemory;
use std::alloc::Global;

/// Numbers of runnables that have been found, so that each is looked for once.
#[derive(Drop)]
pub(crate) struct FoundNumbers {
    /// A list for each task, with a place for each of its runnables.
    by_task: List<List<Option<u64>>>,
}

/// Makes room for a number of each runnable of a task.
fn room_of_task(alloc: Global, runnables: usize) -> Result<List<Option<u64>>, NoMemory>
    ensures { IfOk result (All (λ number. number ≡ None)) }
{
    let mut room = List::with_room(alloc, runnables)?;
    for _ in 0..runnables {
        room.push(None)?;
    }
    Ok(room)
}

/// Forgets all numbers of a task.
fn forget_all(numbers: &mut List<Option<u64>>)
    ensures { All (λ number. number ≡ None) numbers.new }
{
    for place in 0..numbers.len() {
        *numbers.item_mut(place) = None;
    }
}

impl FoundNumbers {
    /// Makes room for a number of each runnable of a model. None has been found.
    pub(crate) fn new(alloc: Global, model: &ValidModel) -> Result<FoundNumbers, NoMemory>
        ensures { IfOk result (λ found. (number_of : ℕ → ℕ → ℕ) → AreFoundNumbersOf number_of found) }
    {
        let mut by_task = List::with_room(alloc, model.tasks() as usize)?;
        for task in 0..model.tasks() {
            let runnables = model.task(task).runnables.len();
            by_task.push(room_of_task(alloc, runnables)?)?;
        }
        Ok(FoundNumbers { by_task })
    }

    /// Returns the number of a runnable, given by its task and its place in the task, if it has
    /// been found.
    pub(crate) fn number(&self, task: u32, place: u32) -> Option<u64>
        ensures { (number_of : ℕ → ℕ → ℕ) → AreFoundNumbersOf number_of self.now
            → IfSome result (λ number. number ≡ number_of task place) }
    {
        *self.by_task.at(task as usize)?.at(place as usize)?
    }

    /// Keeps the number of a runnable, if there is room for it.
    pub(crate) fn keep(&mut self, task: u32, place: u32, number: u64)
        ensures { (number_of : ℕ → ℕ → ℕ) → AreFoundNumbersOf number_of self.old
            → number ≡ number_of task place → AreFoundNumbersOf number_of self.new }
    {
        let (task, place) = (task as usize, place as usize);
        if task < self.by_task.len() {
            let numbers = self.by_task.item_mut(task);
            if place < numbers.len() {
                *numbers.item_mut(place) = Some(number);
            }
        }
    }

    /// Forgets the numbers of the runnables of a task.
    pub(crate) fn forget(&mut self, task: u32)
        ensures none { (place : ℕ) → number_found self.new task place ≡ None }
        ensures others { (other place : ℕ) → other ≢ task
            → number_found self.new other place ≡ number_found self.old other place }
    {
        let task = task as usize;
        if task < self.by_task.len() {
            forget_all(self.by_task.item_mut(task));
        }
    }
}
