//! Which labels are read, and which are written.
ghost use Rattle.std.specs.Prelude.{◌≡◌, ◌<◌, ◌++◌, ◌||◌, ℕ, List, length, OnOk, IfOk};
ghost use Rattle.cl_text.specs.Line.{line};
ghost use Rattle.cl_model.specs.{declared.task.RunnableDef.RunnableDef, Named.{has_name, all_runnables}};
ghost use Rattle.cl_explain.specs.{Accepted.{use_word, is_used_so, label_line, label_lines}, Inner.Marks.{AreMarksOf, MarksMore}};

use cl_model::{LabelDef, Name, NameSet, RunnableDef, TaskDef, ValidModel};
use cl_report::put_name;
use cl_text::Text;
use cl_time::NoMemory;
use std::alloc::Global;

/// A use of a label that an engineer should know of.
#[derive(Clone, Copy, PartialEq, Eq)]
pub enum LabelUse {
    /// Some runnable reads it, and none writes it.
    Input,
    /// Some runnable writes it, and none reads it.
    Output,
    /// No runnable reads or writes it.
    Unused,
}

impl LabelUse {
    /// Returns the word with which the line of a label of this use begins, and the space after it.
    fn word(self) -> &'static [u8]
        ensures { result.now ≡ use_word self }
    {
        match self {
            LabelUse::Input => b"input ",
            LabelUse::Output => b"output ",
            LabelUse::Unused => b"unused ",
        }
    }

    /// Checks whether a label has this use, by whether it is read and whether it is written.
    fn is_used_so(self, read: bool, written: bool) -> bool
        ensures { result ≡ is_used_so self read written }
    {
        match self {
            LabelUse::Input => read && !written,
            LabelUse::Output => !read && written,
            LabelUse::Unused => !read && !written,
        }
    }
}

/// The names of the labels that some runnables read, and of those that they write.
#[derive(Drop)]
pub(crate) struct Marks {
    reads: NameSet,
    writes: NameSet,
}

/// Adds names to a set.
fn add_all(set: &mut NameSet, names: &[Name]) -> Result<(), NoMemory>
    ensures { OnOk result
        ((name : List ℕ) → has_name name set.new
        ≡ (has_name name set.old || has_name name names.now)) }
{
    for name in names {
        set.add(name)?;
    }
    Ok(())
}

impl Marks {
    /// Collects the names of the labels that the runnables of a model read, and of those that they
    /// write.
    pub(crate) fn of(alloc: Global, model: &ValidModel) -> Result<Marks, NoMemory>
        ensures { IfOk result (AreMarksOf (all_runnables model.now.tasks)) }
    {
        let mut marks = Marks {
            reads: NameSet::new(alloc),
            writes: NameSet::new(alloc),
        };
        for task in model.plain().tasks.as_slice() {
            marks.add_task(task)?;
        }
        Ok(marks)
    }

    /// Adds the labels of the runnables of a task.
    fn add_task(&mut self, task: &TaskDef) -> Result<(), NoMemory>
        ensures { OnOk result
            ((before : List RunnableDef) → AreMarksOf before self.old
            → AreMarksOf (before ++ task.now.runnables) self.new) }
    {
        for runnable in task.runnables.as_slice() {
            self.add_runnable(runnable)?;
        }
        Ok(())
    }

    /// Adds the labels that a runnable reads, and those that it writes.
    fn add_runnable(&mut self, runnable: &RunnableDef) -> Result<(), NoMemory>
        ensures { OnOk result (MarksMore self.old self.new runnable.now) }
    {
        add_all(&mut self.reads, runnable.reads.as_slice())?;
        add_all(&mut self.writes, runnable.writes.as_slice())
    }
}

/// Puts the lines of the labels that have this use, in file order. The marks are those of the
/// model.
pub(crate) fn put_labels(
    text: &mut Text,
    model: &ValidModel,
    marks: &Marks,
    way: LabelUse,
) -> Result<(), NoMemory>
    requires { AreMarksOf (all_runnables model.now.tasks) marks.now }
    ensures { OnOk result (text.new ≡ text.old ++ label_lines way model.now) }
{
    for label in model.plain().labels.as_slice() {
        put_label(text, model, marks, way, label)?;
    }
    Ok(())
}

/// Puts the line of a label if it has this use.
fn put_label(
    text: &mut Text,
    model: &ValidModel,
    marks: &Marks,
    way: LabelUse,
    label: &LabelDef,
) -> Result<(), NoMemory>
    requires { AreMarksOf (all_runnables model.now.tasks) marks.now }
    ensures { OnOk result (text.new ≡ text.old ++ label_line way model.now label.now) }
{
    let read = marks.reads.contains(&label.name);
    let written = marks.writes.contains(&label.name);
    if way.is_used_so(read, written) {
        put_named(text, way.word(), &label.name)
    } else {
        Ok(())
    }
}

/// Puts a line that consists of a word and a name.
pub(crate) fn put_named(text: &mut Text, word: &[u8], name: &Name) -> Result<(), NoMemory>
    ensures { OnOk result (text.new ≡ text.old ++ line (word.now ++ name.now)) }
{
    text.put(word)?;
    put_name(text, name)?;
    text.put(b"\n")
}
