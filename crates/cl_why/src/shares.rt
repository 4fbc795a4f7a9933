//! What the ticks of the worst window of a task go to. Times are in ticks.
ghost use Rattle.std.specs.Prelude.{◌≡◌, ◌<◌, ◌++◌, length, OnOk, codes};
ghost use Rattle.cl_model.specs.ByNumber.{task_at};
ghost use Rattle.cl_why.specs.{Shares.{over_words, window_line, block_share, own_share, free_words, jobs_share, above_share, above_shares, window_lines}, Inner.{window_until, jobs_line, IsWindowOf}};

use crate::window::Window;
use cl_explain::{is_above, put_blocker, put_signed, put_wide};
use cl_model::ValidModel;
use cl_report::put_task_name;
use cl_resp::Block;
use cl_text::Text;
use cl_time::NoMemory;

/// Puts by how many ticks too many are asked, if there are some.
fn put_over(text: &mut Text, over: u128) -> Result<(), NoMemory>
    ensures { OnOk result (text.new ≡ text.old ++ over_words over) }
{
    if over == 0 {
        return Ok(());
    }
    text.put(b" over ")?;
    put_wide(text, over)
}

/// Puts the line of a window of a task, of which so many ticks too many are asked.
fn put_window_line(
    text: &mut Text,
    model: &ValidModel,
    window: &Window,
    over: u128,
) -> Result<(), NoMemory>
    requires { window.now.task < length model.now.tasks }
    ensures { OnOk result
        (text.new ≡ text.old ++ window_until model.now window.now.task window.now.worst window.now.until over) }
{
    text.put(b"window ")?;
    put_task_name(text, model, window.task)?;
    text.put(b" arrival ")?;
    put_signed(text, i128::from(window.worst.arrival))?;
    text.put(b" from ")?;
    put_signed(text, i128::from(window.worst.start))?;
    text.put(b" to ")?;
    put_signed(text, i128::from(window.until))?;
    put_over(text, over)?;
    text.put(b"\n")
}

/// Puts the line of the worst window of a task: when its job arrives, from where to where it lasts
/// and, of a late task, by how much more is asked of it.
fn put_window(text: &mut Text, model: &ValidModel, window: &Window) -> Result<(), NoMemory>
    requires { IsWindowOf model.now window.now.task window.now }
    ensures { OnOk result (text.new ≡ text.old ++ window_line model.now window.now.task window.now.worst) }
{
    put_window_line(text, model, window, window.over(model))
}

/// Puts the beginning of the line of a share: the word `share` and the name of the task.
fn put_share(text: &mut Text, model: &ValidModel, task: u32) -> Result<(), NoMemory>
    requires { task < length model.now.tasks }
    ensures { OnOk result (text.new ≡ text.old ++ (codes "share " ++ (task_at model.now task).name)) }
{
    text.put(b"share ")?;
    put_task_name(text, model, task)
}

/// Puts the line of the block, if that isn't 0: how long it lasts, and which runnable blocks.
fn put_block(text: &mut Text, model: &ValidModel, task: u32, block: u64) -> Result<(), NoMemory>
    requires { task < length model.now.tasks }
    ensures { OnOk result (text.new ≡ text.old ++ block_share model.now task block) }
{
    if block == 0 {
        return Ok(());
    }
    put_share(text, model, task)?;
    text.put(b" block ")?;
    text.put_number(block)?;
    text.put(b" by ")?;
    put_blocker(text, model, task, block, Block::OfLower)?;
    text.put(b"\n")
}

/// Puts the line of the time of the job itself.
fn put_own(text: &mut Text, model: &ValidModel, task: u32, time: u64) -> Result<(), NoMemory>
    requires { task < length model.now.tasks }
    ensures { OnOk result (text.new ≡ text.old ++ own_share model.now task time) }
{
    put_share(text, model, task)?;
    text.put(b" own ")?;
    text.put_number(time)?;
    text.put(b"\n")
}

/// Puts that a task isn't known by its phase, if it isn't.
fn put_free(text: &mut Text, by_phase: bool) -> Result<(), NoMemory>
    ensures { OnOk result (text.new ≡ text.old ++ free_words by_phase) }
{
    if by_phase {
        return Ok(());
    }
    text.put(b" free")
}

/// Puts the line of so many jobs of the task `other`, which take so long, and `free` where that
/// isn't in phase.
fn put_jobs_line(
    text: &mut Text,
    model: &ValidModel,
    task: u32,
    other: u32,
    jobs: u64,
    time: u128,
    by_phase: bool,
) -> Result<(), NoMemory>
    requires task { task < length model.now.tasks }
    requires other { other < length model.now.tasks }
    ensures { OnOk result (text.new ≡ text.old ++ jobs_line model.now task other jobs time by_phase) }
{
    text.put(b"share ")?;
    put_task_name(text, model, task)?;
    text.put(b" above ")?;
    put_task_name(text, model, other)?;
    text.put(b" jobs ")?;
    text.put_number(jobs)?;
    text.put(b" time ")?;
    put_wide(text, time)?;
    put_free(text, by_phase)?;
    text.put(b"\n")
}

/// Puts the line of the jobs of the task `other` that are released in the window, if there are some.
fn put_jobs(
    text: &mut Text,
    model: &ValidModel,
    window: &Window,
    other: u32,
) -> Result<(), NoMemory>
    requires window { IsWindowOf model.now window.now.task window.now }
    requires other { other < length model.now.tasks }
    ensures { OnOk result (text.new ≡ text.old ++ jobs_share model.now window.now.task window.now.worst other) }
{
    let jobs = window.jobs(model, other);
    if jobs == 0 {
        return Ok(());
    }
    let time = window.time_of_jobs(model, other);
    let by_phase = window.cycle.has(other);
    put_jobs_line(text, model, window.task, other, jobs, time, by_phase)
}

/// Puts the line of the jobs of the task `other`, if that is above and there are some.
fn put_above(
    text: &mut Text,
    model: &ValidModel,
    window: &Window,
    other: u32,
) -> Result<(), NoMemory>
    requires window { IsWindowOf model.now window.now.task window.now }
    requires other { other < length model.now.tasks }
    ensures { OnOk result (text.new ≡ text.old ++ above_share model.now window.now.task window.now.worst other) }
{
    if !is_above(model, window.task, other) {
        return Ok(());
    }
    put_jobs(text, model, window, other)
}

/// Puts the lines of the jobs of the tasks above, in file order.
fn put_all_above(text: &mut Text, model: &ValidModel, window: &Window) -> Result<(), NoMemory>
    requires { IsWindowOf model.now window.now.task window.now }
    ensures { OnOk result (text.new ≡ text.old ++ above_shares model.now window.now.task window.now.worst) }
{
    for other in 0..model.tasks() {
        put_above(text, model, window, other)?;
    }
    Ok(())
}

/// Puts the lines of the worst window of a task, and of all that its ticks go to.
pub(crate) fn put_shares(
    text: &mut Text,
    model: &ValidModel,
    window: &Window,
) -> Result<(), NoMemory>
    requires { IsWindowOf model.now window.now.task window.now }
    ensures { OnOk result (text.new ≡ text.old ++ window_lines model.now window.now.task window.now.worst) }
{
    put_window(text, model, window)?;
    put_block(text, model, window.task, window.block)?;
    put_own(text, model, window.task, window.time)?;
    put_all_above(text, model, window)
}
