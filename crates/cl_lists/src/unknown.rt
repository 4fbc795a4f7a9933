//! What is said of an edit that names what isn't there.
ghost use Rattle.std.specs.Prelude.{◌≡◌, ◌++◌, [], ◌∷◌, map, not, OnOk, IfOk, codes};
ghost use Rattle.std.specs.List.{find};
ghost use Rattle.std.specs.Option.{option_copied};
ghost use Rattle.cl_model.specs.Named.{has_name, all_runnables, runnable_names};
ghost use Rattle.cl_edit.specs.declared.edit.NamedPriority.{NamedPriority};
ghost use Rattle.cl_lists.specs.{declared.unknown.RunnableName.RunnableName, Unknown.{unknown_lines, first_unknown, unknown_text}};

use cl_advice::put_known_names;
use cl_edit::{Edit, NamedPriority};
use cl_model::{Name, Named, RunnableDef, SystemModel};
use cl_text::Text;
use cl_time::NoMemory;
use std::alloc::Global;

/// Whether entries have a name among them.
fn is_there<T: Named>(entries: &[T], name: &Name) -> bool
    ensures { result ≡ has_name name.now (map T.name_of entries.now) }
{
    entries.iter().any(|entry| *name == *entry.name())
}

/// Appends a name that isn't there, and the names that there are.
fn put_unknown<T: Named>(
    text: &mut Text,
    kind: &[u8],
    entries: &[T],
    name: &Name,
) -> Result<(), NoMemory>
    ensures { OnOk result (text.new ≡ text.old ++ unknown_lines kind.now (map T.name_of entries.now) name.now) }
{
    text.put(b"unknown ")?;
    text.put(kind)?;
    text.put(b" ")?;
    text.put(name.as_slice())?;
    text.put(b"\n")?;
    put_known_names(text, entries)?;
    Ok(())
}

/// Appends the same where a name isn't there.
fn put_if_unknown<T: Named>(
    text: &mut Text,
    kind: &[u8],
    entries: &[T],
    name: &Name,
) -> Result<(), NoMemory>
    ensures { OnOk result
        (text.new ≡ text.old ++ first_unknown kind.now (map T.name_of entries.now) (name.now ∷ [])) }
{
    if is_there(entries, name) {
        Ok(())
    } else {
        put_unknown(text, kind, entries, name)
    }
}

/// Appends the same of the first of two names that isn't there.
fn put_of_two<T: Named>(
    text: &mut Text,
    kind: &[u8],
    entries: &[T],
    one: &Name,
    other: &Name,
) -> Result<(), NoMemory>
    ensures { OnOk result
        (text.new ≡ text.old ++ first_unknown kind.now (map T.name_of entries.now) (one.now ∷ other.now ∷ [])) }
{
    if is_there(entries, one) {
        put_if_unknown(text, kind, entries, other)
    } else {
        put_unknown(text, kind, entries, one)
    }
}

/// Appends the same of the first task that gets a priority and isn't there.
fn put_of_priorities<T: Named>(
    text: &mut Text,
    kind: &[u8],
    entries: &[T],
    priorities: &[NamedPriority],
) -> Result<(), NoMemory>
    ensures { OnOk result (text.new ≡ text.old
        ++ first_unknown kind.now (map T.name_of entries.now) (map (λ (p : NamedPriority). p.task) priorities.now)) }
{
    match find_unknown(entries, priorities) {
        Some(priority) => put_unknown(text, kind, entries, &priority.task),
        None => Ok(()),
    }
}

/// Finds the first of some tasks that isn't there.
fn find_unknown<'a, T: Named>(
    entries: &[T],
    priorities: &'a [NamedPriority],
) -> Option<&'a NamedPriority>
    ensures { option_copied result
        ≡ find (λ (p : NamedPriority). not (has_name p.task (map T.name_of entries.now))) priorities.now }
{
    priorities
        .iter()
        .find(|priority| !is_there(entries, &priority.task))
}

/// A runnable of any task, by its name.
#[derive(Drop)]
struct RunnableName {
    name: Name,
}

impl Named for RunnableName {
    ghost name_of = { λ runnable. runnable.name };

    fn name(&self) -> &Name {
        &self.name
    }
}

/// Adds the names of the runnables of a task.
fn push_names(names: &mut Vec<RunnableName>, runnables: &[RunnableDef]) -> Result<(), NoMemory>
    ensures { OnOk result (map (λ (it : RunnableName). it.name) names.new.items
        ≡ map (λ (it : RunnableName). it.name) names.old.items ++ runnable_names runnables.now) }
{
    for runnable in runnables {
        names.push(RunnableName {
            name: runnable.name.copy(),
        })?;
    }
    Ok(())
}

/// Lists the names of the runnables of all tasks.
fn names_of_runnables(alloc: Global, model: &SystemModel) -> Result<Vec<RunnableName>, NoMemory>
    ensures { IfOk result (λ names. map (λ (it : RunnableName). it.name) names.items
        ≡ runnable_names (all_runnables model.now.tasks)) }
{
    let mut names = Vec::new(alloc);
    for task in model.tasks.as_slice() {
        push_names(&mut names, task.runnables.as_slice())?;
    }
    Ok(names)
}

/// Appends what is said of the name of a runnable that isn't there.
fn put_if_no_runnable(
    text: &mut Text,
    alloc: Global,
    model: &SystemModel,
    name: &Name,
) -> Result<(), NoMemory>
    ensures { OnOk result (text.new ≡ text.old
        ++ first_unknown (codes "runnable") (runnable_names (all_runnables model.now.tasks)) (name.now ∷ [])) }
{
    let names = names_of_runnables(alloc, model)?;
    put_if_unknown(text, b"runnable", names.as_slice(), name)
}

/// Appends what is said of an edit that is refused since it names what isn't there: the first such
/// name, and the names of its kind that there are. Nothing is said of an edit that names nothing.
///
/// Fails with `NoMemory` where there is no memory for the names of the runnables or for the text.
/// Then the text ends with a prefix of what is said, possibly empty.
pub fn put_unknown_name(
    text: &mut Text,
    alloc: Global,
    model: &SystemModel,
    edit: &Edit,
) -> Result<(), NoMemory>
    ensures { OnOk result (text.new ≡ text.old ++ unknown_text model.now edit.now) }
{
    let tasks = model.tasks.as_slice();
    let stimuli = model.stimuli.as_slice();
    match edit {
        Edit::Range { runnable, .. } | Edit::Whole { runnable, .. } => {
            put_if_no_runnable(text, alloc, model, runnable)
        }
        Edit::Period { stimulus, .. }
        | Edit::Offset { stimulus, .. }
        | Edit::Jitter { stimulus, .. }
        | Edit::Distances { stimulus, .. }
        | Edit::Burst { stimulus, .. } => put_if_unknown(text, b"stimulus", stimuli, stimulus),
        Edit::Deadline { task, .. }
        | Edit::Move { task, .. }
        | Edit::Kind { task, .. }
        | Edit::DropTask { task } => put_if_unknown(text, b"task", tasks, task),
        Edit::Swap { one, other } => put_of_two(text, b"task", tasks, one, other),
        Edit::Priorities(priorities) => {
            put_of_priorities(text, b"task", tasks, priorities.as_slice())
        }
        Edit::DropChain { chain } => {
            put_if_unknown(text, b"chain", model.chains.as_slice(), chain)
        }
        Edit::DropRequirement { requirement } => {
            put_if_unknown(
                text,
                b"requirement",
                model.requirements.as_slice(),
                requirement,
            )
        }
        _ => Ok(()),
    }
}
