//! How long the runnables of a planned run take. Times are in ticks.
ghost use Rattle.std.specs.Prelude.{◌<◌, length};

use cl_model::ValidModel;

/// Which of the times that a runnable may take it takes.
#[derive(Clone, Copy, PartialEq, Eq)]
pub(crate) enum Time {
    Least,
    Greatest,
}

/// Returns how long a runnable of a task takes, 0 where there is no such runnable.
pub(crate) fn time_of(model: &ValidModel, task: u32, place: u32, time: Time) -> u64
    requires { task < length model.now.tasks }
{
    match (model.task(task).runnables.at(place as usize), time) {
        (Some(runnable), Time::Least) => runnable.least,
        (Some(runnable), Time::Greatest) => runnable.greatest,
        (None, _) => 0,
    }
}
