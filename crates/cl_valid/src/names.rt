//! The names of a model, which are numbered and checked for repeats.
ghost use Rattle.std.specs.Prelude.{◌≡◌, ◌<◌, ◌^◌, ◌++◌, [], All, map, length, IfOk, OnOk};
ghost use Rattle.cl_model.specs.declared.place.Part.TheVariants as parts;
ghost use Rattle.cl_model.specs.declared.place.Key.TheVariants as keys;
ghost use Rattle.cl_model.specs.declared.refusal.Code.TheVariants as codes;
ghost use Rattle.cl_model.specs.{Answers.Answers, Place.{entry_of, at_key, at_sub}, Named.{runnable_names, all_runnables}, Ranges.{IsInRange, IsTaskInRange}, Refusals.each, ValidNames.{repeats, section_repeats, runnable_repeats, name_checks}};
ghost use Rattle.cl_valid.specs.Inner.Tables.{no_names, names_of};

use crate::places::{at_sub, entry_of};
use cl_model::{
    Code, Key, List, ModelFault, NameSet, Named, Part, Place, RunnableDef, SystemModel, TaskDef,
    add_new,
};
use std::alloc::Global;

/// The names of a model that later checks look up. Those of each section are numbered as its
/// entries, and those of the runnables in file order over all tasks.
#[derive(Drop)]
pub struct Names {
    pub cores: NameSet,
    pub stimuli: NameSet,
    pub labels: NameSet,
    pub runnables: NameSet,
    pub chains: NameSet,
}

fn add_entries<T: Named>(
    names: &mut NameSet,
    code: Code,
    section: Part,
    entries: &[T],
) -> Result<(), ModelFault>
    requires { length entries.now < 2 ^ 32 }
    ensures checked { Answers result
        (repeats code (λ i. at_key keys.Name (entry_of section i)) names.old (map T.name_of entries.now)) tt }
    ensures names { OnOk result (names.new ≡ names.old ++ map T.name_of entries.now) }
{
    for (i, entry) in entries.iter().enumerate() {
        let place = entry_of(section, i).at_key(Key::Name);
        add_new(names, entry.name(), code, place)?;
    }
    Ok(())
}

/// Adds the names of a section, and refuses the first one that repeats an earlier one.
fn add_section<T: Named>(
    names: &mut NameSet,
    code: Code,
    section: Part,
    entries: &List<T>,
) -> Result<(), ModelFault>
    requires count { length entries.now < 2 ^ 32 }
    requires empty { names.old ≡ [] }
    ensures checked { Answers result (section_repeats code section (map T.name_of entries.now)) tt }
    ensures names { OnOk result (names.new ≡ map T.name_of entries.now) }
{
    names.reserve(entries.len())?;
    add_entries(names, code, section, entries.as_slice())
}

/// Refuses the first name of a section that repeats an earlier one.
fn check_section<T: Named>(
    alloc: Global,
    code: Code,
    section: Part,
    entries: &List<T>,
) -> Result<(), ModelFault>
    requires { length entries.now < 2 ^ 32 }
    ensures { Answers result (section_repeats code section (map T.name_of entries.now)) tt }
{
    let mut names = NameSet::new(alloc);
    add_section(&mut names, code, section, entries)
}

fn add_runnables(names: &mut NameSet, i: usize, runnables: &[RunnableDef]) -> Result<(), ModelFault>
    requires item { i < 2 ^ 32 }
    requires count { length runnables.now < 2 ^ 32 }
    ensures checked { Answers result
        (repeats codes.M24 (λ p. at_key keys.Name (at_sub p (entry_of parts.Task i))) names.old (runnable_names runnables.now)) tt }
    ensures names { OnOk result (names.new ≡ names.old ++ runnable_names runnables.now) }
{
    for (p, runnable) in runnables.iter().enumerate() {
        let place = at_sub(entry_of(Part::Task, i), p).at_key(Key::Name);
        add_new(names, &runnable.name, Code::M24, place)?;
    }
    Ok(())
}

/// Adds the names of the runnables of all tasks, and refuses the first one that repeats an earlier
/// one.
fn add_all_runnables(names: &mut NameSet, tasks: &[TaskDef]) -> Result<(), ModelFault>
    requires tasks { length tasks.now < 2 ^ 32 }
    requires runnables { All IsTaskInRange tasks.now }
    requires empty { names.old ≡ [] }
    ensures checked { Answers result (each (runnable_repeats tasks.now) tasks.now) tt }
    ensures names { OnOk result (names.new ≡ runnable_names (all_runnables tasks.now)) }
{
    for (i, task) in tasks.iter().enumerate() {
        add_runnables(names, i, task.runnables.as_slice())?;
    }
    Ok(())
}

/// Adds all names, and checks M20 to M26. The caller owns the names, so an early exit drops none
/// here.
#[tactic(auto, using(cl_model::proofs::FirstRefusals::faults), unfolding(cl_model::specs::ValidNames::name_checks))]
fn add_all(alloc: Global, names: &mut Names, model: &SystemModel) -> Result<(), ModelFault>
    requires in_range { IsInRange model.now }
    requires empty { names.old ≡ no_names }
    ensures checked { Answers result (name_checks model.now) tt }
    ensures names { OnOk result (names.new ≡ names_of model.now) }
{
    add_section(&mut names.cores, Code::M20, Part::Core, &model.cores)?;
    add_section(
        &mut names.stimuli,
        Code::M21,
        Part::Stimulus,
        &model.stimuli,
    )?;
    add_section(&mut names.labels, Code::M22, Part::Label, &model.labels)?;
    check_section(alloc, Code::M23, Part::Task, &model.tasks)?;
    add_all_runnables(&mut names.runnables, model.tasks.as_slice())?;
    add_section(&mut names.chains, Code::M25, Part::Chain, &model.chains)?;
    check_section(alloc, Code::M26, Part::Requirement, &model.requirements)?;
    Ok(())
}

/// Checks M20 to M26 and returns the names of a model, numbered. Fails with the first refusal, or
/// with `NoMemory` where memory runs out.
pub fn names_of(alloc: Global, model: &SystemModel) -> Result<Names, ModelFault>
    requires { IsInRange model.now }
    ensures { Answers result (name_checks model.now) (names_of model.now) }
{
    let mut names = Names {
        cores: NameSet::new(alloc),
        stimuli: NameSet::new(alloc),
        labels: NameSet::new(alloc),
        runnables: NameSet::new(alloc),
        chains: NameSet::new(alloc),
    };
    add_all(alloc, &mut names, model)?;
    Ok(names)
}
