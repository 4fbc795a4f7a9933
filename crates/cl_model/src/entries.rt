//! The names of the entries of a section.
ghost use Rattle.std.specs.Prelude.{◌≡◌, List, ℕ, ◌++◌, map, IfOk, OnOk};
ghost use Rattle.cl_model.specs.NameSets.{AreDistinctNames, AreNew};

use crate::chain::{ChainDef, RequirementDef};
use crate::model::{CoreDef, LabelDef};
use crate::name::Name;
use crate::name_set::NameSet;
use crate::stimulus::StimulusDef;
use crate::task::{RunnableDef, TaskDef};
use cl_time::NoMemory;
use std::alloc::Global;

/// An entry that has a name.
pub trait Named {
    ghost name_of: { Self → List ℕ };

    /// Returns the name of the entry.
    fn name(&self) -> &Name
        ensures { result.now ≡ name_of self.now };
}

/// Adds the names of entries after the others, where each of them is new. After `NoMemory` the
/// first of them, possibly none, are added.
pub fn add_names<T: Named>(names: &mut NameSet, entries: &[T]) -> Result<(), NoMemory>
    requires { AreNew names.old (map T.name_of entries.now) }
    ensures { OnOk result (names.new ≡ names.old ++ map T.name_of entries.now) }
{
    for entry in entries {
        let _ = names.add(entry.name())?;
    }
    Ok(())
}

/// Makes the set of the names of entries, which must differ, numbered as the entries. Fails with
/// `NoMemory` where memory runs out.
pub fn name_numbers<T: Named>(alloc: Global, entries: &[T]) -> Result<NameSet, NoMemory>
    requires { AreDistinctNames (map T.name_of entries.now) }
    ensures { IfOk result (λ names. names ≡ map T.name_of entries.now) }
{
    let mut names = NameSet::new(alloc);
    names.reserve(entries.len())?;
    add_names(&mut names, entries)?;
    Ok(names)
}

impl Named for CoreDef {
    ghost name_of = { λ core. core.name };

    fn name(&self) -> &Name {
        &self.name
    }
}

impl Named for StimulusDef {
    ghost name_of = { λ stimulus. stimulus.name };

    fn name(&self) -> &Name {
        &self.name
    }
}

impl Named for LabelDef {
    ghost name_of = { λ label. label.name };

    fn name(&self) -> &Name {
        &self.name
    }
}

impl Named for TaskDef {
    ghost name_of = { λ task. task.name };

    fn name(&self) -> &Name {
        &self.name
    }
}

impl Named for RunnableDef {
    ghost name_of = { λ runnable. runnable.name };

    fn name(&self) -> &Name {
        &self.name
    }
}

impl Named for ChainDef {
    ghost name_of = { λ chain. chain.name };

    fn name(&self) -> &Name {
        &self.name
    }
}

impl Named for RequirementDef {
    ghost name_of = { λ requirement. requirement.name };

    fn name(&self) -> &Name {
        &self.name
    }
}
