//! The lines of decisions. Times are in ticks.
ghost use Rattle.std.specs.Prelude.{◌≡◌, ℕ, ◌<◌, ◌++◌, length, OnOk};
ghost use Rattle.cl_verify.specs.{declared.decision.Decision.TheVariants.Late, VerifyText.{seen_words, value_of_words, none_of_words, task_decision_words, task_decision_line, decision_words, decision_line}};

use crate::decision::{Decision, TaskDecision};
use cl_model::{RequirementDef, ValidModel};
use cl_report::{kind_word, put_name, put_task_name};
use cl_text::Text;
use cl_time::NoMemory;

/// Puts what a run shows, if it shows anything. After `NoMemory` the text ends with a prefix of it.
pub fn put_seen(text: &mut Text, seen: Option<u64>) -> Result<(), NoMemory>
    ensures { OnOk result (text.new ≡ text.old ++ seen_words seen) }
{
    match seen {
        Some(ticks) => {
            text.put(b" seen ")?;
            text.put_number(ticks)
        }
        None => Ok(()),
    }
}

/// Puts a number and what is allowed.
fn put_value_of(text: &mut Text, value: u64, most: u64) -> Result<(), NoMemory>
    ensures { OnOk result (text.new ≡ text.old ++ value_of_words value most) }
{
    text.put_number(value)?;
    text.put(b" of ")?;
    text.put_number(most)
}

/// Puts that there is no number, and what is allowed.
fn put_none_of(text: &mut Text, most: u64) -> Result<(), NoMemory>
    ensures { OnOk result (text.new ≡ text.old ++ none_of_words most) }
{
    text.put(b"none of ")?;
    text.put_number(most)
}

/// Puts what is decided of a task that is to finish by this deadline.
fn put_task_words(text: &mut Text, deadline: u64, decision: TaskDecision) -> Result<(), NoMemory>
    ensures { OnOk result (text.new ≡ text.old ++ task_decision_words deadline decision) }
{
    match decision {
        TaskDecision::Met { response } => {
            put_value_of(text, response, deadline)?;
            text.put(b" met")
        }
        TaskDecision::Broken => {
            put_none_of(text, deadline)?;
            text.put(b" broken")
        }
        TaskDecision::Unshown { seen } => {
            put_none_of(text, deadline)?;
            text.put(b" unshown")?;
            put_seen(text, seen)
        }
    }
}

/// Puts the line of a task. After `NoMemory` the text ends with a prefix of it.
pub fn put_task(
    text: &mut Text,
    model: &ValidModel,
    task: u32,
    decision: TaskDecision,
) -> Result<(), NoMemory>
    requires { task < length model.now.tasks }
    ensures { OnOk result (text.new ≡ text.old ++ task_decision_line model.now decision task) }
{
    text.put(b"task ")?;
    put_task_name(text, model, task)?;
    text.put(b" response ")?;
    put_task_words(text, model.deadline_of(task), decision)?;
    text.put(b"\n")
}

/// Puts what is decided of a requirement of at most so many ticks. A late task that the decision
/// names is a task of the model.
fn put_words(
    text: &mut Text,
    model: &ValidModel,
    most: u64,
    decision: Decision,
) -> Result<(), NoMemory>
    requires { (late : ℕ) → decision ≡ Late late → late < length model.now.tasks }
    ensures { OnOk result (text.new ≡ text.old ++ decision_words model.now most decision) }
{
    match decision {
        Decision::Met { bound } => {
            put_value_of(text, bound, most)?;
            text.put(b" met")
        }
        Decision::Broken { bound, seen } => {
            put_value_of(text, bound, most)?;
            text.put(b" broken")?;
            put_seen(text, Some(seen))
        }
        Decision::Unshown { bound, seen } => {
            put_value_of(text, bound, most)?;
            text.put(b" unshown")?;
            put_seen(text, seen)
        }
        Decision::Late { task } => {
            put_none_of(text, most)?;
            text.put(b" unshown by ")?;
            put_task_name(text, model, task)
        }
    }
}

/// Puts the line of a requirement of the model. A late task that the decision names is a task of it.
/// After `NoMemory` the text ends with a prefix of the line.
pub fn put_requirement(
    text: &mut Text,
    model: &ValidModel,
    requirement: &RequirementDef,
    decision: Decision,
) -> Result<(), NoMemory>
    requires { (late : ℕ) → decision ≡ Late late → late < length model.now.tasks }
    ensures { OnOk result (text.new ≡ text.old ++ decision_line model.now requirement.now decision) }
{
    text.put(b"requirement ")?;
    put_name(text, &requirement.name)?;
    text.put(b" ")?;
    put_name(text, &requirement.chain)?;
    text.put(b" ")?;
    text.put(kind_word(requirement.kind))?;
    text.put(b" ")?;
    put_words(text, model, requirement.most, decision)?;
    text.put(b"\n")
}
