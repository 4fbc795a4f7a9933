//! Which tasks of an edited model stand as they did: with their timings and their answers, maybe
//! under other numbers. For each task a list has the number that it had where it stands, and else a
//! number that is past the last task of the old model.
ghost use Rattle.std.specs.Prelude.{◌≡◌, ◌<◌, ◌↔◌, length, IsTrue, IfOk};
ghost use Rattle.cl_runs.specs.SystemOf.{system_of};
ghost use Rattle.cl_bound.specs.Answers.{answers_of};
ghost use Rattle.cl_incr.specs.Inner.Standing.{HasSameTimings, StandsAs, AreStanding};

use crate::timings::has_same_timing;
use cl_bound::TaskAnswer;
use cl_model::{List, ValidModel};
use cl_time::NoMemory;
use std::alloc::Global;

/// Whether the tasks of a core have, one by one, the timings that its tasks had.
fn core_stays(old: &ValidModel, new: &ValidModel, core: u32) -> bool
    requires { core < length new.now.cores }
    ensures known { IsTrue result → core < length old.now.cores }
    ensures same { IsTrue result → HasSameTimings old.now new.now core }
{
    if core >= old.cores() {
        return false;
    }
    let were = old.tasks_of_core(core);
    let are = new.tasks_of_core(core);
    if were.len() != are.len() {
        return false;
    }
    for place in 0..are.len() {
        if !has_same_timing(old, were[place], new, are[place]) {
            return false;
        }
    }
    true
}

/// Notes that each task of a core stands as the one did that stood at its place.
fn note_core(old: &ValidModel, new: &ValidModel, core: u32, standing: &mut Vec<u32>)
    requires core { core < length new.now.cores }
    requires known { core < length old.now.cores }
    requires same { HasSameTimings old.now new.now core }
    requires standing { AreStanding old.now new.now standing.old.items }
    ensures { AreStanding old.now new.now standing.new.items }
{
    let were = old.tasks_of_core(core);
    let are = new.tasks_of_core(core);
    for place in 0..are.len() {
        standing[are[place] as usize] = were[place];
    }
}

/// Finds the tasks that stand because all timings of their cores do.
pub(crate) fn standing_on_cores(
    alloc: Global,
    old: &ValidModel,
    new: &ValidModel,
) -> Result<Vec<u32>, NoMemory>
    ensures { IfOk result (λ standing. AreStanding old.now new.now standing.items) }
{
    let mut standing = vec![in alloc; old.tasks(); new.tasks() as usize]?;
    for core in 0..new.cores() {
        if core_stays(old, new, core) {
            note_core(old, new, core, &mut standing);
        }
    }
    Ok(standing)
}

/// Whether two answers are the same.
fn is_same_answer(one: TaskAnswer, other: TaskAnswer) -> bool
    ensures { IsTrue result ↔ (one ≡ other) }
{
    one == other
}

/// Whether a task of the new model stands as one of the old model did.
fn stands_as(
    old: &ValidModel,
    old_answers: &List<TaskAnswer>,
    was: u32,
    new: &ValidModel,
    new_answers: &List<TaskAnswer>,
    task: u32,
) -> bool
    requires old_answers { old_answers.now ≡ answers_of (system_of old.now) }
    requires new_answers { new_answers.now ≡ answers_of (system_of new.now) }
    requires task { task < length new.now.tasks }
    ensures { IsTrue result → StandsAs old.now new.now was task }
{
    if was >= old.tasks() {
        return false;
    }
    if !has_same_timing(old, was, new, task) {
        return false;
    }
    is_same_answer(
        old_answers.as_slice()[was as usize],
        new_answers.as_slice()[task as usize],
    )
}

/// Finds as which task one of the new model stands: under its own number or, where there were more
/// tasks, under the number that is greater by as many.
fn standing_of(
    old: &ValidModel,
    old_answers: &List<TaskAnswer>,
    new: &ValidModel,
    new_answers: &List<TaskAnswer>,
    task: u32,
) -> u32
    requires old_answers { old_answers.now ≡ answers_of (system_of old.now) }
    requires new_answers { new_answers.now ≡ answers_of (system_of new.now) }
    requires task { task < length new.now.tasks }
    ensures { result < length old.now.tasks → StandsAs old.now new.now result task }
{
    let behind = task + old.tasks().saturating_sub(new.tasks());
    if stands_as(old, old_answers, task, new, new_answers, task) {
        task
    } else if stands_as(old, old_answers, behind, new, new_answers, task) {
        behind
    } else {
        old.tasks()
    }
}

/// Notes which of the other tasks stand: those of cores that don't stay whose own timings and
/// answers do.
pub(crate) fn note_others(
    old: &ValidModel,
    old_answers: &List<TaskAnswer>,
    new: &ValidModel,
    new_answers: &List<TaskAnswer>,
    standing: &mut Vec<u32>,
)
    requires old_answers { old_answers.now ≡ answers_of (system_of old.now) }
    requires new_answers { new_answers.now ≡ answers_of (system_of new.now) }
    requires standing { AreStanding old.now new.now standing.old.items }
    ensures { AreStanding old.now new.now standing.new.items }
{
    for task in 0..new.tasks() {
        if standing[task as usize] >= old.tasks() {
            standing[task as usize] = standing_of(old, old_answers, new, new_answers, task);
        }
    }
}
