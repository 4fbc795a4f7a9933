//! What may hold the core of a task of higher priority. Times are in ticks.
ghost use Rattle.std.specs.Prelude.{◌<◌, length};

use cl_model::ValidModel;

/// A whole runnable that may hold the core of a task of higher priority.
#[derive(Clone, Copy, PartialEq, Eq)]
pub(crate) struct Blocker {
    /// Its task.
    pub(crate) task: u32,
    /// How long it may hold the core once it has begun.
    hold: u64,
    /// How long the runnables of its job take that come before it, at most.
    pub(crate) before: u64,
}

/// Finds the first of the runnables of a task that may hold its core longest.
fn longest_of_task(model: &ValidModel, task: u32) -> Blocker
    requires task { task < length model.now.tasks }
{
    let mut longest = Blocker {
        task,
        hold: 0,
        before: 0,
    };
    let mut before: u64 = 0;
    for runnable in model.task(task).runnables.as_slice() {
        if runnable.hold() > longest.hold {
            longest = Blocker {
                task,
                hold: runnable.hold(),
                before,
            };
        }
        before = before.saturating_add(runnable.greatest);
    }
    longest
}

/// Finds the first runnable in file order that may hold the core of a task longest, among those of
/// the tasks of lower priority there. `None` comes where none may hold it.
pub(crate) fn blocker_of(model: &ValidModel, task: u32) -> Option<Blocker>
    requires task { task < length model.now.tasks }
{
    let priority = model.task(task).priority;
    let mut blocker: Option<Blocker> = None;
    for other in model.tasks_of_core(model.core_of(task)) {
        if model.task(*other).priority < priority {
            blocker = longer_of(blocker, longest_of_task(model, *other));
        }
    }
    blocker
}

/// Returns the one of two that may hold the core longer, the first where they are alike. `None`
/// stands for one that doesn't hold it.
fn longer_of(first: Option<Blocker>, second: Blocker) -> Option<Blocker> {
    let hold = match first {
        Some(blocker) => blocker.hold,
        None => 0,
    };
    if second.hold > hold {
        Some(second)
    } else {
        first
    }
}
