//! The parts that add up to a response. Times are in ticks.
ghost use Rattle.std.specs.Prelude.{◌≡◌, ◌<◌, ◌≤◌, ◌++◌, length, OnOk, position, codes};
ghost use Rattle.cl_model.specs.{ByNumber.task_at, Validity.IsValid};
ghost use Rattle.cl_runs.specs.{SystemOf.system_of, TaskTiming.timing_at, Priorities.{is_above, is_below, may_block}};
ghost use Rattle.cl_resp.specs.{Question.{question_of, IsQuestionInRange}, Response.response_to};
ghost use Rattle.cl_bound.specs.Answers.{answer_with};
ghost use Rattle.cl_explain.specs.Parts.{may_block_by, window_counted, jobs_above, time_above, blocks_so_long, blocker_of, jitter_part, block_part, own_part, above_part, above_parts, over_part, part_lines, taken_part};

use crate::numbers::put_wide;
use cl_bound::TaskAnswer;
use cl_model::{TaskDef, ValidModel};
use cl_report::{put_name, put_task_name};
use cl_resp::{Block, Question, demand};
use cl_stim::{AnyStimulus, Arrivals, MOST_WIDTH};
use cl_text::Text;
use cl_time::NoMemory;

/// Returns the window over which releases are counted: that of the response or, where the task is
/// late, all of its deadline that the jitter leaves.
fn window_counted(question: &Question, answer: &TaskAnswer) -> u64
    requires in_range { IsQuestionInRange question.now }
    requires answer { answer.now ≡ answer_with (response_to question.now) }
    ensures window { result ≡ window_counted question.now answer.now }
    ensures narrow { result ≤ MOST_WIDTH }
{
    match answer {
        TaskAnswer::Settled(settled) => settled.window(),
        TaskAnswer::Late => question.deadline - question.jitter,
    }
}

/// Puts the beginning of the line of a part: the word `part` and the name of the task.
fn put_part(text: &mut Text, model: &ValidModel, task: u32) -> Result<(), NoMemory>
    requires { task < length model.now.tasks }
    ensures { OnOk result (text.new ≡ text.old ++ (codes "part " ++ (task_at model.now task).name)) }
{
    text.put(b"part ")?;
    put_task_name(text, model, task)
}

/// Puts the line of the jitter of a task, if that isn't 0.
fn put_jitter(text: &mut Text, model: &ValidModel, task: u32, jitter: u64) -> Result<(), NoMemory>
    requires { task < length model.now.tasks }
    ensures { OnOk result (text.new ≡ text.old ++ jitter_part model.now task jitter) }
{
    if jitter == 0 {
        return Ok(());
    }
    put_part(text, model, task)?;
    text.put(b" jitter ")?;
    text.put_number(jitter)?;
    text.put(b"\n")
}

/// Checks whether a runnable of the task `other` may hold the core of `task` while that waits:
/// whether it is on the same core and has a lower priority or, where the block counts a task's own
/// runnables, is the task itself.
fn may_block(model: &ValidModel, task: u32, other: u32, blocking: Block) -> bool
    requires task { task < length model.now.tasks }
    requires other { other < length model.now.tasks }
    ensures { result ≡ may_block_by blocking (timing_at (system_of model.now) task) (timing_at (system_of model.now) other) }
{
    match blocking {
        Block::OfLower => is_below(model, task, other),
        Block::WithOwn => is_no_higher(model, task, other),
    }
}

/// Checks whether the task `other` has a lower priority than `task`, on the same core.
fn is_below(model: &ValidModel, task: u32, other: u32) -> bool
    requires task { task < length model.now.tasks }
    requires other { other < length model.now.tasks }
    ensures { result ≡ is_below (timing_at (system_of model.now) task) (timing_at (system_of model.now) other) }
{
    model.core_of(other) == model.core_of(task)
        && model.task(other).priority < model.task(task).priority
}

/// Checks whether the task `other` has no higher priority than `task`, on the same core.
fn is_no_higher(model: &ValidModel, task: u32, other: u32) -> bool
    requires task { task < length model.now.tasks }
    requires other { other < length model.now.tasks }
    ensures { result ≡ may_block (timing_at (system_of model.now) task) (timing_at (system_of model.now) other) }
{
    model.core_of(other) == model.core_of(task)
        && model.task(other).priority <= model.task(task).priority
}

/// Finds the place of the first runnable of a task that blocks others for `block` ticks.
fn blocks_at(task: &TaskDef, block: u64) -> Option<usize>
    ensures { result ≡ position (blocks_so_long block) task.now.runnables }
{
    task.runnables
        .as_slice()
        .iter()
        .position(|runnable| runnable.hold() == block)
}

/// Puts the name of the first runnable that may block a task for `block` ticks, in file order. Puts
/// nothing where there is none. After `NoMemory` the text is as it was.
pub fn put_blocker(
    text: &mut Text,
    model: &ValidModel,
    task: u32,
    block: u64,
    blocking: Block,
) -> Result<(), NoMemory>
    requires { task < length model.now.tasks }
    ensures { OnOk result (text.new ≡ text.old ++ blocker_of blocking model.now task block) }
{
    for other in 0..model.tasks() {
        if may_block(model, task, other, blocking) {
            let blocker = model.task(other);
            match blocks_at(blocker, block) {
                Some(place) => return put_name(text, &blocker.runnables.as_slice()[place].name),
                None => {}
            }
        }
    }
    Ok(())
}

/// Puts the line of the blocking of a task, if that isn't 0: how long it lasts, and which runnable
/// blocks.
fn put_block(text: &mut Text, model: &ValidModel, task: u32, block: u64) -> Result<(), NoMemory>
    requires { task < length model.now.tasks }
    ensures { OnOk result (text.new ≡ text.old ++ block_part model.now task block) }
{
    if block == 0 {
        return Ok(());
    }
    put_part(text, model, task)?;
    text.put(b" block ")?;
    text.put_number(block)?;
    text.put(b" by ")?;
    put_blocker(text, model, task, block, Block::WithOwn)?;
    text.put(b"\n")
}

/// Puts the line of the execution time of a job of the task itself, if that isn't 0.
fn put_own(text: &mut Text, model: &ValidModel, task: u32, time: u64) -> Result<(), NoMemory>
    requires { task < length model.now.tasks }
    ensures { OnOk result (text.new ≡ text.old ++ own_part model.now task time) }
{
    if time == 0 {
        return Ok(());
    }
    put_part(text, model, task)?;
    text.put(b" own ")?;
    text.put_number(time)?;
    text.put(b"\n")
}

/// Checks whether the task `other` has a higher priority than `task`, on the same core.
pub fn is_above(model: &ValidModel, task: u32, other: u32) -> bool
    requires task { task < length model.now.tasks }
    requires other { other < length model.now.tasks }
    ensures { result ≡ is_above (timing_at (system_of model.now) task) (timing_at (system_of model.now) other) }
{
    model.core_of(other) == model.core_of(task)
        && model.task(task).priority < model.task(other).priority
}

/// Returns the greatest number of jobs of a task that are released in a window of `width` ticks.
fn jobs_above(model: &ValidModel, other: u32, width: u64) -> u64
    requires valid { IsValid model.now }
    requires other { other < length model.now.tasks }
    requires narrow { width ≤ MOST_WIDTH }
    ensures { result ≡ jobs_above width (timing_at (system_of model.now) other) }
{
    AnyStimulus::of(model.stimulus_of(other)).most(width)
}

/// Puts the line of the jobs of a task above that are released in a window, and of the time that
/// they take, if that isn't 0.
fn put_taken(
    text: &mut Text,
    model: &ValidModel,
    task: u32,
    other: u32,
    jobs: u64,
    time: u128,
) -> Result<(), NoMemory>
    requires task { task < length model.now.tasks }
    requires other { other < length model.now.tasks }
    ensures { OnOk result (text.new ≡ text.old ++ taken_part model.now task other jobs time) }
{
    if time == 0 {
        return Ok(());
    }
    put_part(text, model, task)?;
    text.put(b" above ")?;
    put_task_name(text, model, other)?;
    text.put(b" jobs ")?;
    text.put_number(jobs)?;
    text.put(b" time ")?;
    put_wide(text, time)?;
    text.put(b"\n")
}

/// Puts the line of what the task `other` takes of a window of `width` ticks, if it is above `task`
/// and takes any of it.
fn put_above(
    text: &mut Text,
    model: &ValidModel,
    task: u32,
    width: u64,
    other: u32,
) -> Result<(), NoMemory>
    requires valid { IsValid model.now }
    requires task { task < length model.now.tasks }
    requires other { other < length model.now.tasks }
    requires narrow { width ≤ MOST_WIDTH }
    ensures { OnOk result (text.new ≡ text.old ++ above_part model.now task width other) }
{
    if !is_above(model, task, other) {
        return Ok(());
    }
    let jobs = jobs_above(model, other, width);
    let time = u128::from(jobs) * u128::from(model.time_of(other));
    put_taken(text, model, task, other, jobs, time)
}

/// Puts the lines of what the tasks above a task take of a window of `width` ticks, in file order.
fn put_all_above(text: &mut Text, model: &ValidModel, task: u32, width: u64) -> Result<(), NoMemory>
    requires task { task < length model.now.tasks }
    requires narrow { width ≤ MOST_WIDTH }
    ensures { OnOk result (text.new ≡ text.old ++ above_parts model.now task width) }
{
    for other in 0..model.tasks() {
        put_above(text, model, task, width, other)?;
    }
    Ok(())
}

/// Puts the line of how far the parts of a task exceed its deadline, if it is late.
fn put_over(
    text: &mut Text,
    model: &ValidModel,
    task: u32,
    question: &Question,
    answer: &TaskAnswer,
) -> Result<(), NoMemory>
    requires task { task < length model.now.tasks }
    requires in_range { IsQuestionInRange question.now }
    ensures { OnOk result
        (text.new ≡ text.old ++ over_part model.now task question.now answer.now) }
{
    if !answer.is_late() {
        return Ok(());
    }
    let width = question.deadline - question.jitter;
    put_part(text, model, task)?;
    text.put(b" over ")?;
    put_wide(
        text,
        demand(question, width).saturating_sub(u128::from(width)),
    )?;
    text.put(b"\n")
}

/// Puts the lines of the parts that add up to the response of a task or, where it is late, of those
/// that exceed its deadline, and by how much. The question is that of the task, and the answer the
/// one to it.
pub(crate) fn put_parts(
    text: &mut Text,
    model: &ValidModel,
    task: u32,
    question: &Question,
    answer: &TaskAnswer,
) -> Result<(), NoMemory>
    requires task { task < length model.now.tasks }
    requires in_range { IsQuestionInRange question.now }
    requires question { question.now ≡ question_of (system_of model.now) (timing_at (system_of model.now) task) }
    requires answer { answer.now ≡ answer_with (response_to question.now) }
    ensures { OnOk result (text.new ≡ text.old ++ part_lines model.now task answer.now) }
{
    let width = window_counted(question, answer);
    put_jitter(text, model, task, question.jitter)?;
    put_block(text, model, task, question.block)?;
    put_own(text, model, task, question.time)?;
    put_all_above(text, model, task, width)?;
    put_over(text, model, task, question, answer)
}
