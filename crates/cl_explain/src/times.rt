//! Runnables that take more than half of the time of their task.
ghost use Rattle.std.specs.Prelude.{◌≡◌, ◌<◌, ◌++◌, ◌*◌, nat_lt, length, OnOk};
ghost use Rattle.std.specs.List.{flat_map, range_with_len};
ghost use Rattle.cl_model.specs.Validity.{IsValid};
ghost use Rattle.cl_explain.specs.Accepted.{is_more_than_half, time_words, time_line, time_lines_of, time_lines};

use cl_model::{RunnableDef, ValidModel};
use cl_report::put_name;
use cl_text::Text;
use cl_time::NoMemory;

/// Whether a time is more than half of a distance.
fn is_more_than_half(greatest: u64, distance: u64) -> bool
    ensures { result ≡ is_more_than_half greatest distance }
{
    u128::from(distance) < 2 * u128::from(greatest)
}

/// Puts the name of a runnable, its greatest time and the least distance of its task.
fn put_time_words(text: &mut Text, runnable: &RunnableDef, distance: u64) -> Result<(), NoMemory>
    ensures { OnOk result (text.new ≡ text.old ++ time_words distance runnable.now) }
{
    text.put(b"time ")?;
    put_name(text, &runnable.name)?;
    text.put(b" ")?;
    text.put_number(runnable.greatest)?;
    text.put(b" of ")?;
    text.put_number(distance)
}

/// Puts the line of a runnable if it takes more than half of this distance.
fn put_time(text: &mut Text, runnable: &RunnableDef, distance: u64) -> Result<(), NoMemory>
    ensures { OnOk result (text.new ≡ text.old ++ time_line distance runnable.now) }
{
    if is_more_than_half(runnable.greatest, distance) {
        put_time_words(text, runnable, distance)?;
        text.put(b"\n")
    } else {
        Ok(())
    }
}

/// Puts the lines of the runnables of a task.
fn put_times_of(text: &mut Text, model: &ValidModel, task: u32) -> Result<(), NoMemory>
    requires valid { IsValid model.now }
    requires task { task < length model.now.tasks }
    ensures { OnOk result (text.new ≡ text.old ++ time_lines_of model.now task) }
{
    let distance = model.stimulus_of(task).least_distance();
    for runnable in model.task(task).runnables.as_slice() {
        put_time(text, runnable, distance)?;
    }
    Ok(())
}

/// Puts the lines of the runnables that take more than half of the least distance of their task, in
/// file order.
pub(crate) fn put_times(text: &mut Text, model: &ValidModel) -> Result<(), NoMemory>
    ensures { OnOk result (text.new ≡ text.old ++ time_lines model.now) }
{
    for task in 0..model.tasks() {
        put_times_of(text, model, task)?;
    }
    Ok(())
}
