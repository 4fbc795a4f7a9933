//! Questions on the tasks, the cores and the chains of a valid model.
ghost use Rattle.std.specs.Prelude.{◌<◌, length};

use crate::words::{chain_at, no_such_number, put_number, said, task_at, word};
use cl_io::Words;
use cl_model::{Group, Name, ValidModel};
use cl_text::Text;
use cl_time::NoMemory;
use std::alloc::Global;

/// Answers `task MODEL TASK`: the core of a task, its stimulus, its deadline, its jitter, its time,
/// and the tasks of its core.
pub(crate) fn task_line(
    alloc: Global,
    words: &Words,
    model: &ValidModel,
) -> Result<Text, NoMemory> {
    match task_at(words, 3, model) {
        Some(task) => said(alloc, task_words(alloc, model, task)?.as_str()),
        None => no_such_number(alloc),
    }
}

fn task_words(alloc: Global, model: &ValidModel, task: u32) -> Result<String, NoMemory>
    requires { task < length model.now.tasks }
{
    let core = model.core_of(task);
    let stimulus = model.stimulus_of(task);
    let deadline = model.deadline_of(task);
    let jitter = model.jitter_of(task);
    let time = model.time_of(task);
    let tasks = model.tasks_of_core(core);
    Ok(format!(in alloc; "{core} {stimulus:?} {deadline} {jitter} {time} {tasks:?}")?)
}

/// Answers `named MODEL NAME`: the numbers of the task and of the chain of a name.
pub(crate) fn numbers_line(
    alloc: Global,
    words: &Words,
    model: &ValidModel,
) -> Result<Text, NoMemory> {
    match Name::read(word(words, 3).as_bytes()) {
        Some(name) => said(alloc, numbers_of(alloc, model, &name)?.as_str()),
        None => said(alloc, "no name"),
    }
}

fn numbers_of(alloc: Global, model: &ValidModel, name: &Name) -> Result<String, NoMemory> {
    let task = model.task_named(name);
    let chain = model.chain_named(name);
    Ok(format!(in alloc; "{task:?} {chain:?}")?)
}

/// Answers `group MODEL CHAIN`: how many groups a chain has, and each of them, asked for one by
/// one.
pub(crate) fn group_line(
    alloc: Global,
    words: &Words,
    model: &ValidModel,
) -> Result<Text, NoMemory> {
    match chain_at(words, 3, model) {
        Some(chain) => each_group(alloc, model, chain),
        None => no_such_number(alloc),
    }
}

fn each_group(alloc: Global, model: &ValidModel, chain: u32) -> Result<Text, NoMemory>
    requires { chain < length model.now.chains }
{
    let mut text = Text::new(alloc);
    let count = model.group_count(chain);
    text.put_number(u64::from(count))?;
    for place in 0..count {
        put_group(&mut text, model.group(chain, place))?;
    }
    text.put(b"\n")?;
    Ok(text)
}

/// Answers `groups MODEL CHAIN`: the same as `group`, but by the slice of all groups.
pub(crate) fn groups_line(
    alloc: Global,
    words: &Words,
    model: &ValidModel,
) -> Result<Text, NoMemory> {
    match chain_at(words, 3, model) {
        Some(chain) => all_groups(alloc, model.groups(chain)),
        None => no_such_number(alloc),
    }
}

fn all_groups(alloc: Global, groups: &[Group]) -> Result<Text, NoMemory> {
    let mut text = Text::new(alloc);
    text.put_number(groups.len() as u64)?;
    for group in groups {
        put_group(&mut text, *group)?;
    }
    text.put(b"\n")?;
    Ok(text)
}

/// Puts the task of a group, and the indices of its first and its last runnable.
fn put_group(text: &mut Text, group: Group) -> Result<(), NoMemory> {
    put_number(text, b", task ", u64::from(group.task))?;
    put_number(text, b" ", u64::from(group.first))?;
    put_number(text, b" to ", u64::from(group.last))
}
