//! The entries of each section, one writer for each.
ghost use Rattle.std.specs.Prelude.{◌≡◌, ◌++◌, OnOk};
ghost use Rattle.std.specs.List.{concat};
ghost use Rattle.cl_model.specs.{AreNamed.{IsRunnableNamed, IsTaskNamed, IsChainNamed, IsRequirementNamed}, Name.IsName};
ghost use Rattle.cl_write.specs.Inner.Printed.{core_text, label_text, stimulus_text, runnable_text, lines_of_runnable, task_text, lines_of_task, chain_text, requirement_text, lines_of_requirement};

use crate::entries::{Written, put_all};
use crate::kinds::put_kind;
use crate::lines::{put_name, put_names, put_number, put_number_if, put_when_true, put_word};
use cl_model::{
    ChainDef, CoreDef, Key, LabelDef, RequirementDef, RunnableDef, StimulusDef, TaskDef,
};
use cl_text::Text;
use cl_time::NoMemory;

impl Written for CoreDef {
    ghost is_named = { λ core. IsName core.name };

    ghost printed = { core_text };

    fn put(&self, text: &mut Text) -> Result<(), NoMemory> {
        text.put(b"\n[[core]]\n")?;
        put_name(text, Key::Name, &self.name)
    }
}

impl Written for StimulusDef {
    ghost is_named = { λ stimulus. IsName stimulus.name };

    ghost printed = { stimulus_text };

    fn put(&self, text: &mut Text) -> Result<(), NoMemory> {
        text.put(b"\n[[stimulus]]\n")?;
        put_kind(text, &self.name, self.kind)
    }
}

impl Written for LabelDef {
    ghost is_named = { λ label. IsName label.name };

    ghost printed = { label_text };

    fn put(&self, text: &mut Text) -> Result<(), NoMemory> {
        text.put(b"\n[[label]]\n")?;
        put_name(text, Key::Name, &self.name)
    }
}

impl Written for RunnableDef {
    ghost is_named = { IsRunnableNamed };

    ghost printed = { runnable_text };

    fn put(&self, text: &mut Text) -> Result<(), NoMemory> {
        text.put(b"\n[[task.runnable]]\n")?;
        put_runnable(text, self)?;
        Ok(())
    }
}

impl Written for TaskDef {
    ghost is_named = { IsTaskNamed };

    ghost printed = { task_text };

    fn put(&self, text: &mut Text) -> Result<(), NoMemory> {
        text.put(b"\n[[task]]\n")?;
        put_task(text, self)?;
        put_all(text, self.runnables.as_slice())
    }
}

impl Written for ChainDef {
    ghost is_named = { IsChainNamed };

    ghost printed = { chain_text };

    fn put(&self, text: &mut Text) -> Result<(), NoMemory> {
        text.put(b"\n[[chain]]\n")?;
        put_names(text, Key::Labels, &self.labels)?;
        put_name(text, Key::Name, &self.name)?;
        put_names(text, Key::Runnables, &self.runnables)
    }
}

impl Written for RequirementDef {
    ghost is_named = { IsRequirementNamed };

    ghost printed = { requirement_text };

    fn put(&self, text: &mut Text) -> Result<(), NoMemory> {
        text.put(b"\n[[requirement]]\n")?;
        put_requirement(text, self)?;
        Ok(())
    }
}

/// Appends the lines of a runnable.
fn put_runnable(text: &mut Text, runnable: &RunnableDef) -> Result<(), NoMemory>
    ensures printed { OnOk result (text.new ≡ text.old ++ concat (lines_of_runnable runnable.now)) }
    ensures named { OnOk result (IsRunnableNamed runnable.now) }
{
    put_number(text, Key::Greatest, runnable.greatest)?;
    put_number(text, Key::Least, runnable.least)?;
    put_name(text, Key::Name, &runnable.name)?;
    put_names(text, Key::Reads, &runnable.reads)?;
    put_when_true(text, Key::Whole, runnable.whole)?;
    put_names(text, Key::Writes, &runnable.writes)?;
    Ok(())
}

/// Appends the lines of a task that come before its runnables.
fn put_task(text: &mut Text, task: &TaskDef) -> Result<(), NoMemory>
    ensures printed { OnOk result (text.new ≡ text.old ++ concat (lines_of_task task.now)) }
    ensures name { OnOk result (IsName task.now.name) }
    ensures core { OnOk result (IsName task.now.core) }
    ensures stimulus { OnOk result (IsName task.now.stimulus) }
{
    put_word(text, Key::Access, task.access.word().as_bytes())?;
    put_name(text, Key::Core, &task.core)?;
    put_number_if(text, Key::Deadline, task.deadline)?;
    put_name(text, Key::Name, &task.name)?;
    put_number(text, Key::Priority, task.priority)?;
    put_name(text, Key::Stimulus, &task.stimulus)?;
    Ok(())
}

/// Appends the lines of a requirement.
fn put_requirement(text: &mut Text, requirement: &RequirementDef) -> Result<(), NoMemory>
    ensures printed { OnOk result
        (text.new ≡ text.old ++ concat (lines_of_requirement requirement.now)) }
    ensures named { OnOk result (IsRequirementNamed requirement.now) }
{
    put_name(text, Key::Chain, &requirement.chain)?;
    put_word(text, Key::Kind, requirement.kind.word().as_bytes())?;
    put_number(text, Key::Most, requirement.most)?;
    put_name(text, Key::Name, &requirement.name)
}
