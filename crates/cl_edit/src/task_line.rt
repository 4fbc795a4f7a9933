//! Reading the line of a new task: its properties, and then its runnables up to the end of the
//! line.
ghost use Rattle.std.specs.Prelude.{◌≡◌, [], IfOk};
ghost use Rattle.cl_edit.specs.Inner.{Parts.{ReadsPart, ReadsUpTo}, LineReads.{runnable_in, runnables_in, task_head_in, task_in}};

use crate::edit::Edit;
use crate::fault::Unread;
use crate::fields;
use crate::words::Parts;
use cl_model::{List, MOST_ACCESSES, MOST_PRIORITY, MOST_RUNNABLES, RunnableDef, TaskDef};
use std::alloc::Global;

/// Reads a runnable. No line says that a runnable is whole.
fn runnable(alloc: Global, words: &mut Parts<'_>) -> Result<RunnableDef, Unread>
    ensures { ReadsUpTo result words.new (runnable_in words.old) }
{
    let name = fields::name(words)?;
    let least = fields::time(words)?;
    let greatest = fields::time(words)?;
    let reads = fields::names(alloc, words, MOST_ACCESSES)?;
    let writes = fields::names(alloc, words, MOST_ACCESSES)?;
    Ok(RunnableDef {
        name,
        least,
        greatest,
        whole: false,
        reads,
        writes,
    })
}

/// Reads all words that are left as runnables. `Bad` where they are more than a task may have.
fn runnables(alloc: Global, words: &mut Parts<'_>) -> Result<List<RunnableDef>, Unread>
    ensures all { IfOk result (λ _. words.new ≡ []) }
    ensures read { ReadsPart result (runnables_in words.old) }
{
    let mut runnables = List::new(alloc);
    while !words.is_done() {
        if runnables.len() == MOST_RUNNABLES {
            return Err(Unread::Bad);
        }
        runnables.push(runnable(alloc, words)?)?;
    }
    Ok(runnables)
}

/// Reads the properties of a task that stand before its runnables.
fn head(alloc: Global, words: &mut Parts<'_>) -> Result<TaskDef, Unread>
    ensures { ReadsUpTo result words.new (task_head_in words.old) }
{
    let name = fields::name(words)?;
    let core = fields::name(words)?;
    let stimulus = fields::name(words)?;
    let priority = fields::number(words, 0, MOST_PRIORITY)?;
    let access = fields::access(words)?;
    let deadline = fields::deadline(words)?;
    Ok(TaskDef {
        name,
        core,
        stimulus,
        priority,
        access,
        deadline,
        runnables: List::new(alloc),
    })
}

/// Reads a new task. `Bad` where it has no runnable.
pub(crate) fn task(alloc: Global, words: &mut Parts<'_>) -> Result<Edit, Unread>
    ensures { ReadsUpTo result words.new (task_in words.old) }
{
    let mut task = head(alloc, words)?;
    task.runnables = runnables(alloc, words)?;
    if task.runnables.is_empty() {
        return Err(Unread::Bad);
    }
    Ok(Edit::AddTask(task))
}
