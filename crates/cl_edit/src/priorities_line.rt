//! Reading the line of priorities: tasks and the priorities that they get, up to the end of the
//! line.
ghost use Rattle.std.specs.Prelude.{◌≡◌, [], IfOk};
ghost use Rattle.cl_edit.specs.Inner.{Parts.{ReadsPart, ReadsUpTo}, LineReads.{read_priority, priority_list_in, priorities_in}};

use crate::edit::{Edit, NamedPriority};
use crate::fault::Unread;
use crate::fields;
use crate::words::Parts;
use cl_model::{List, MOST_PRIORITY, MOST_TASKS, NameSet};
use std::alloc::Global;

/// Reads a task and the priority that it gets.
fn priority(words: &mut Parts<'_>) -> Result<NamedPriority, Unread>
    ensures { ReadsUpTo result words.new (read_priority words.old) }
{
    let task = fields::name(words)?;
    let priority = fields::number(words, 0, MOST_PRIORITY)?;
    Ok(NamedPriority { task, priority })
}

/// Reads all words that are left as tasks with their priorities. `Bad` where they are more than a
/// model may have, or where one stands twice.
fn priority_list(alloc: Global, words: &mut Parts<'_>) -> Result<List<NamedPriority>, Unread>
    ensures all { IfOk result (λ _. words.new ≡ []) }
    ensures read { ReadsPart result (priority_list_in words.old) }
{
    let mut priorities = List::new(alloc);
    let mut tasks = NameSet::new(alloc);
    while !words.is_done() {
        if priorities.len() == MOST_TASKS {
            return Err(Unread::Bad);
        }
        let next = priority(words)?;
        if !tasks.add(&next.task)? {
            return Err(Unread::Bad);
        }
        priorities.push(next)?;
    }
    Ok(priorities)
}

/// Reads the priorities of tasks. `Bad` where there is none.
pub(crate) fn priorities(alloc: Global, words: &mut Parts<'_>) -> Result<Edit, Unread>
    ensures { ReadsUpTo result words.new (priorities_in words.old) }
{
    let priorities = priority_list(alloc, words)?;
    if priorities.is_empty() {
        return Err(Unread::Bad);
    }
    Ok(Edit::Priorities(priorities))
}
