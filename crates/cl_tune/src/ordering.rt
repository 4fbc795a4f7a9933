//! The best orders of the priorities on all cores.
ghost use Rattle.std.specs.Prelude.{◌≡◌, ℕ, ◌<◌, ◌==◌, length, slice_index, position, IfOk};
ghost use Rattle.std.specs.List.{HoldsAt};
ghost use Rattle.cl_model.specs.ByNumber.{core_of};
ghost use Rattle.cl_tune.specs.{Orders.priority_in, BestOrders.IsOrderAnswer};

use crate::answer::OrderAnswer;
use crate::filling::best_order;
use cl_model::{List, ValidModel};
use cl_time::{NoMemory, Steps};
use std::alloc::Global;
use std::sync::ledger::Ledger;

/// Finds the place of a task in an order, counted from 0. There is none exactly where the order
/// doesn't have the task.
fn place_in(order: &[u32], task: u32) -> Option<usize>
    ensures { result ≡ position (λ other. other == task) order.now }
{
    order.iter().position(|other| *other == task)
}

/// The priority that an order gives a task: 1 for its first task.
fn priority_in(order: &[u32], task: u32) -> u64
    ensures { result ≡ priority_in order.now task }
{
    place_in(order, task).unwrap_or(0) as u64 + 1
}

/// Lists the priorities that the orders of the cores give the tasks, in file order.
fn priorities_by(
    alloc: Global,
    model: &ValidModel,
    orders: &[Vec<u32>],
) -> Result<List<u64>, NoMemory>
    requires { length orders.now ≡ length model.now.cores }
    ensures one_a_task { IfOk result (λ priorities. length priorities ≡ length model.now.tasks) }
    ensures each { IfOk result (λ priorities. (task : ℕ) → task < length model.now.tasks
        → HoldsAt (λ order. slice_index priorities task
        ≡ priority_in order.items task) orders.now (core_of model.now task)) }
{
    let mut priorities = List::new(alloc);
    for task in 0..model.tasks() {
        let order = &orders[model.core_of(task) as usize];
        priorities.push(priority_in(order.as_slice(), task))?;
    }
    Ok(priorities)
}

/// Finds the best order of the priorities on every core. Under it no task of the core is late and
/// no deadline spans too many least distances of a task of higher priority. Of all such orders it
/// is the first in dictionary order, as a list of tasks by their numbers from priority 1 upward.
/// The blocking by whole runnables is that under the order that is tried.
///
/// With these priorities on all cores at once the model is valid and none of its tasks is late (see
/// `laws`).
///
/// Where no order of some core passes, the answer is the first such core. The only error is
/// `NoMemory`, where memory ran out; it leaves nothing. It asks at most one question for each task
/// that is tried at a priority, which counts a step.
pub fn order<L: Ledger>(
    alloc: Global,
    model: &ValidModel,
    steps: &mut Steps<L>,
) -> Result<OrderAnswer, NoMemory>
    ensures { IfOk result (IsOrderAnswer model.now) }
{
    let mut orders = Vec::new(alloc);
    for core in 0..model.cores() {
        let Some(order) = best_order(alloc, model, core, steps)? else {
            return Ok(OrderAnswer::NoOrder { core });
        };
        orders.push(order)?;
    }
    let priorities = priorities_by(alloc, model, orders.as_slice())?;
    Ok(OrderAnswer::Order { priorities })
}
