//! The lines of the entries of a model with which a refused one clashes.
ghost use Rattle.std.specs.Prelude.{◌≡◌, ◌<◌, ◌++◌, find, option_map, OnOk};
ghost use Rattle.std.specs.Option.{option_and_then, option_copied};
ghost use Rattle.cl_model.specs.Named.{has_name};
ghost use Rattle.cl_advice.specs.With.{item_if, with_line, task_of_place, runnable_of_place, labels_under, label_of_place, shares_priority, rival_of, is_sought, found_by, writer_of, step_name, handed_lines, lines_with, with_lines};

use cl_model::{Code, Key, List, Name, Part, Place, Refusal, RunnableDef, SystemModel, TaskDef};
use cl_text::Text;
use cl_time::NoMemory;

/// Appends the line of an entry of this section with this name, if there is a name.
fn put_with(text: &mut Text, section: &[u8], name: Option<&Name>) -> Result<(), NoMemory>
    ensures { OnOk result
        (text.new ≡ text.old ++ with_line section.now (option_copied name.entry)) }
{
    match name {
        Some(name) => {
            text.put(b"with ")?;
            text.put(section)?;
            text.put(b" ")?;
            text.put(name.as_slice())?;
            text.put(b"\n")
        }
        None => Ok(()),
    }
}

/// Returns the item of a list with this number, if there is a number and such an item.
pub(crate) fn item_if<T>(items: &List<T>, number: Option<u32>) -> Option<&T>
    ensures { option_copied result ≡ item_if items.now number }
{
    match number {
        Some(number) => items.at(number as usize),
        None => None,
    }
}

pub(crate) fn core_name(model: &SystemModel, place: Place) -> Option<&Name>
    ensures { option_copied result ≡ option_map
        (λ core. core.name) (item_if model.now.cores place.item) }
{
    match item_if(&model.cores, place.item) {
        Some(core) => Some(&core.name),
        None => None,
    }
}

pub(crate) fn stimulus_name(model: &SystemModel, place: Place) -> Option<&Name>
    ensures { option_copied result ≡ option_map
        (λ stimulus. stimulus.name) (item_if model.now.stimuli place.item) }
{
    match item_if(&model.stimuli, place.item) {
        Some(stimulus) => Some(&stimulus.name),
        None => None,
    }
}

pub(crate) fn label_name(model: &SystemModel, place: Place) -> Option<&Name>
    ensures { option_copied result ≡ option_map
        (λ label. label.name) (item_if model.now.labels place.item) }
{
    match item_if(&model.labels, place.item) {
        Some(label) => Some(&label.name),
        None => None,
    }
}

pub(crate) fn task_name(model: &SystemModel, place: Place) -> Option<&Name>
    ensures { option_copied result ≡ option_map
        (λ task. task.name) (item_if model.now.tasks place.item) }
{
    match item_if(&model.tasks, place.item) {
        Some(task) => Some(&task.name),
        None => None,
    }
}

/// Finds the name of the stimulus of the task at a place.
fn stimulus_of(model: &SystemModel, place: Place) -> Option<&Name>
    ensures { option_copied result ≡ option_map
        (λ task. task.stimulus) (item_if model.now.tasks place.item) }
{
    match item_if(&model.tasks, place.item) {
        Some(task) => Some(&task.stimulus),
        None => None,
    }
}

pub(crate) fn chain_name(model: &SystemModel, place: Place) -> Option<&Name>
    ensures { option_copied result ≡ option_map
        (λ chain. chain.name) (item_if model.now.chains place.item) }
{
    match item_if(&model.chains, place.item) {
        Some(chain) => Some(&chain.name),
        None => None,
    }
}

pub(crate) fn requirement_name(model: &SystemModel, place: Place) -> Option<&Name>
    ensures { option_copied result
        ≡ option_map (λ requirement. requirement.name) (item_if model.now.requirements place.item) }
{
    match item_if(&model.requirements, place.item) {
        Some(requirement) => Some(&requirement.name),
        None => None,
    }
}

pub(crate) fn name_of(runnable: Option<&RunnableDef>) -> Option<&Name>
    ensures { option_copied result ≡ option_map
        (λ runnable. runnable.name) (option_copied runnable.entry) }
{
    match runnable {
        Some(runnable) => Some(&runnable.name),
        None => None,
    }
}

/// Returns the runnable of a model that contains a place.
pub(crate) fn runnable_of(model: &SystemModel, place: Place) -> Option<&RunnableDef>
    ensures { option_copied result ≡ runnable_of_place model.now place }
{
    match item_if(&model.tasks, place.item) {
        Some(task) => item_if(&task.runnables, place.sub),
        None => None,
    }
}

/// Returns the labels that a runnable reads where the key is `reads`, and else those that it
/// writes.
fn labels_under(key: Option<Key>, runnable: &RunnableDef) -> &List<Name>
    ensures { result.now ≡ labels_under key runnable.now }
{
    match key {
        Some(Key::Reads) => &runnable.reads,
        _ => &runnable.writes,
    }
}

/// Returns the label of a model at a place.
fn label_of(model: &SystemModel, place: Place) -> Option<&Name>
    ensures { option_copied result ≡ label_of_place model.now place }
{
    match runnable_of(model, place) {
        Some(runnable) => item_if(labels_under(place.key, runnable), place.spot),
        None => None,
    }
}

fn shares_priority(task: &TaskDef, other: &TaskDef) -> bool
    ensures { result ≡ shares_priority task.now other.now }
{
    task.core == other.core && other.priority == task.priority
}

/// Finds the first task of the same core and priority.
fn rival_of<'a>(model: &'a SystemModel, task: &TaskDef) -> Option<&'a TaskDef>
    ensures { option_copied result ≡ rival_of model.now task.now }
{
    model
        .tasks
        .iter()
        .find(|other| shares_priority(task, other))
}

/// Finds the name of the first task with the core and the priority of the one at a place.
fn rival_name(model: &SystemModel, place: Place) -> Option<&Name>
    ensures { option_copied result
        ≡ option_map (λ other. other.name) (option_and_then (rival_of model.now) (task_of_place model.now place)) }
{
    match item_if(&model.tasks, place.item) {
        Some(task) => match rival_of(model, task) {
            Some(other) => Some(&other.name),
            None => None,
        },
        None => None,
    }
}

fn writes(runnable: &RunnableDef, label: &Name) -> bool
    ensures { result ≡ has_name label.now runnable.now.writes }
{
    runnable.writes.iter().any(|written| label == written)
}

/// By what a runnable is sought.
#[derive(Clone, Copy)]
pub(crate) enum Sought {
    /// The first that writes a label of this name.
    Writer,
    /// The first of this name.
    Named,
}

/// Whether a runnable is what is sought by this name.
fn is_sought(sought: Sought, name: &Name, runnable: &RunnableDef) -> bool
    ensures { result ≡ is_sought sought name.now runnable.now }
{
    match sought {
        Sought::Writer => writes(runnable, name),
        Sought::Named => *name == runnable.name,
    }
}

/// Finds the first of these runnables that is sought by this name.
fn found_among<'a>(
    runnables: &'a [RunnableDef],
    sought: Sought,
    name: &Name,
) -> Option<&'a RunnableDef>
    ensures { option_copied result ≡ find (is_sought sought name.now) runnables.now }
{
    runnables
        .iter()
        .find(|runnable| is_sought(sought, name, runnable))
}

/// Finds the first runnable of a model that is sought by this name.
pub(crate) fn found_by<'a>(
    model: &'a SystemModel,
    sought: Sought,
    name: &Name,
) -> Option<&'a RunnableDef>
    ensures { option_copied result ≡ found_by model.now sought name.now }
{
    for task in model.tasks.as_slice() {
        if let Some(runnable) = found_among(task.runnables.as_slice(), sought, name) {
            return Some(runnable);
        }
    }
    None
}

/// Finds the name of the first runnable that writes the label at a place.
fn writer_name(model: &SystemModel, place: Place) -> Option<&Name>
    ensures { option_copied result
        ≡ option_map (λ writer. writer.name) (option_and_then (writer_of model.now) (label_of_place model.now place)) }
{
    match label_of(model, place) {
        Some(label) => name_of(found_by(model, Sought::Writer, label)),
        None => None,
    }
}

/// Returns the name of a step of the chain at a place: the step whose number is the spot of the
/// place plus `behind`.
pub(crate) fn step_name(model: &SystemModel, place: Place, behind: usize) -> Option<&Name>
    requires { behind < 2 }
    ensures { option_copied result
        ≡ step_name model.now place behind }
{
    match item_if(&model.chains, place.item) {
        Some(chain) => match place.spot {
            Some(spot) => chain.runnables.at(spot as usize + behind),
            None => None,
        },
        None => None,
    }
}

/// Appends the lines of the two runnables of the hop at a place.
fn put_hop(text: &mut Text, model: &SystemModel, place: Place) -> Result<(), NoMemory>
    ensures { OnOk result (text.new ≡ text.old ++ handed_lines model.now place) }
{
    put_with(text, b"runnable", step_name(model, place, 0))?;
    put_with(text, b"runnable", step_name(model, place, 1))
}

/// Appends the lines of the entries of a model with which the refused one clashes.
fn put_lines_with(text: &mut Text, model: &SystemModel, refusal: Refusal) -> Result<(), NoMemory>
    ensures { OnOk result (text.new ≡ text.old ++ lines_with model.now refusal.place refusal.code) }
{
    let place = refusal.place;
    match refusal.code {
        Code::M20 => put_with(text, b"core", core_name(model, place)),
        Code::M21 => put_with(text, b"stimulus", stimulus_name(model, place)),
        Code::M22 => put_with(text, b"label", label_name(model, place)),
        Code::M23 => put_with(text, b"task", task_name(model, place)),
        Code::M24 => put_with(text, b"runnable", name_of(runnable_of(model, place))),
        Code::M25 => put_with(text, b"chain", chain_name(model, place)),
        Code::M26 => put_with(text, b"requirement", requirement_name(model, place)),
        Code::M31 => put_with(text, b"task", rival_name(model, place)),
        Code::M33 => put_with(text, b"stimulus", stimulus_of(model, place)),
        Code::M39 => put_with(text, b"label", label_of(model, place)),
        Code::M40 => put_with(text, b"runnable", writer_name(model, place)),
        Code::M45 => put_hop(text, model, place),
        _ => Ok(()),
    }
}

/// Appends the lines of the entries with which the refused one clashes, none where there is no
/// model.
pub(crate) fn put_with_lines(
    text: &mut Text,
    model: Option<&SystemModel>,
    refusal: Refusal,
) -> Result<(), NoMemory>
    ensures { OnOk result (text.new ≡ text.old ++ with_lines (option_copied model.entry) refusal) }
{
    match model {
        Some(model) => put_lines_with(text, model, refusal),
        None => Ok(()),
    }
}
