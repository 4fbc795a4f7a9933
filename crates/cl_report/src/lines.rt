//! The report of a model, as text.
ghost use Rattle.std.specs.Prelude.{◌≡◌, ℕ, ◌<◌, ◌++◌, length, OnOk, OnErr, IfOk};
ghost use Rattle.std.specs.List.{flat_map, range_with_len};
ghost use Rattle.cl_analyse.specs.{declared.findings.ChainAnswer.TheVariants.Late, Findings.AreFindings};
ghost use Rattle.cl_text.specs.Beginnings.{PutsPart};
ghost use Rattle.cl_report.specs.Report.{task_words, task_line, task_lines, bounds_words, chain_words, chain_line, chain_lines, report_text};

use crate::exact_lines::put_exact;
use crate::requirement_lines::put_requirements;
use crate::words::{put_name, put_task_name};
use cl_analyse::{ChainAnswer, Findings};
use cl_bound::TaskAnswer;
use cl_hop::Bounds;
use cl_model::{List, ValidModel};
use cl_text::Text;
use cl_time::NoMemory;
use std::alloc::Global;

/// Builds the report of a model: a title, a line for each task, a line for each chain followed by
/// the lines on its exact lengths, and a line for each requirement, each in file order. Times are
/// in ticks. The findings are those of the model.
///
/// `NoMemory` comes where there is no memory for the text; it leaves nothing.
pub fn report(alloc: Global, model: &ValidModel, findings: &Findings) -> Result<Text, NoMemory>
    requires { AreFindings model.now findings.now }
    ensures { IfOk result (λ text. text ≡ report_text model.now findings.now) }
{
    let mut text = Text::new(alloc);
    put_report(&mut text, model, findings)?;
    Ok(text)
}

/// Appends the report of a model to a text. The findings are those of the model.
///
/// `NoMemory` comes where there is no memory for the longer text. After `NoMemory` the text ends
/// with a prefix of the report.
pub fn put_report(text: &mut Text, model: &ValidModel, findings: &Findings) -> Result<(), NoMemory>
    requires { AreFindings model.now findings.now }
    ensures ok { OnOk result (text.new ≡ text.old ++ report_text model.now findings.now) }
    ensures err { OnErr result (PutsPart text.old text.new (report_text model.now findings.now)) }
{
    text.put(b"chainlat report 1\n")?;
    put_tasks(text, model, &findings.tasks)?;
    put_chains(text, model, findings)?;
    put_requirements(text, model, &findings.verdicts)?;
    Ok(())
}

/// Puts the lines of all tasks in file order. There is one answer for each task.
pub fn put_tasks(
    text: &mut Text,
    model: &ValidModel,
    tasks: &List<TaskAnswer>,
) -> Result<(), NoMemory>
    requires { length tasks.now ≡ length model.now.tasks }
    ensures ok { OnOk result (text.new ≡ text.old ++ task_lines model.now tasks.now) }
    ensures err { OnErr result (PutsPart text.old text.new (task_lines model.now tasks.now)) }
{
    for task in 0..model.tasks() {
        put_task(text, model, &tasks.as_slice()[task as usize], task)?;
    }
    Ok(())
}

/// Appends the line of a task with this answer to a text.
///
/// `NoMemory` comes where there is no memory for the longer text. After `NoMemory` the text ends
/// with a prefix of the line.
pub fn put_task(
    text: &mut Text,
    model: &ValidModel,
    answer: &TaskAnswer,
    task: u32,
) -> Result<(), NoMemory>
    requires { task < length model.now.tasks }
    ensures ok { OnOk result (text.new ≡ text.old ++ task_line model.now answer.now task) }
    ensures err { OnErr result (PutsPart text.old text.new (task_line model.now answer.now task)) }
{
    text.put(b"task ")?;
    put_task_name(text, model, task)?;
    put_answer(text, answer)?;
    text.put(b" deadline ")?;
    text.put_number(model.deadline_of(task))?;
    text.put(b"\n")
}

/// Puts the response of a task, or that it is late.
fn put_answer(text: &mut Text, answer: &TaskAnswer) -> Result<(), NoMemory>
    ensures ok { OnOk result (text.new ≡ text.old ++ task_words answer.now) }
    ensures err { OnErr result (PutsPart text.old text.new (task_words answer.now)) }
{
    match answer {
        TaskAnswer::Settled(settled) => {
            text.put(b" response ")?;
            text.put_number(settled.response())
        }
        TaskAnswer::Late => text.put(b" late"),
    }
}

/// Puts the lines of all chains in file order, each followed by the lines on its exact lengths.
fn put_chains(text: &mut Text, model: &ValidModel, findings: &Findings) -> Result<(), NoMemory>
    requires { AreFindings model.now findings.now }
    ensures ok { OnOk result
        (text.new ≡ text.old ++ flat_map (chain_lines model.now findings.now) (range_with_len 0 (length model.now.chains))) }
    ensures err { OnErr result
        (PutsPart text.old text.new (flat_map (chain_lines model.now findings.now)
        (range_with_len 0 (length model.now.chains)))) }
{
    for chain in 0..model.chains() {
        put_chain(
            text,
            model,
            &findings.chains.as_slice()[chain as usize],
            chain,
        )?;
        put_exact(text, model, findings, chain)?;
    }
    Ok(())
}

/// Appends the line of a chain with this answer to a text. A late task that the answer names is a
/// task of the model.
///
/// `NoMemory` comes where there is no memory for the longer text. After `NoMemory` the text ends
/// with a prefix of the line.
pub fn put_chain(
    text: &mut Text,
    model: &ValidModel,
    answer: &ChainAnswer,
    chain: u32,
) -> Result<(), NoMemory>
    requires within { chain < length model.now.chains }
    requires known { (late : ℕ) → answer.now ≡ Late late → late < length model.now.tasks }
    ensures ok { OnOk result (text.new ≡ text.old ++ chain_line model.now answer.now chain) }
    ensures err { OnErr result
        (PutsPart text.old text.new (chain_line model.now answer.now chain)) }
{
    text.put(b"chain ")?;
    put_name(text, &model.chain(chain).name)?;
    put_chain_answer(text, model, answer)?;
    text.put(b"\n")
}

/// Puts the bounds of a chain, or the late task that leaves it without bounds.
pub fn put_chain_answer(
    text: &mut Text,
    model: &ValidModel,
    answer: &ChainAnswer,
) -> Result<(), NoMemory>
    requires { (late : ℕ) → answer.now ≡ Late late → late < length model.now.tasks }
    ensures ok { OnOk result (text.new ≡ text.old ++ chain_words model.now answer.now) }
    ensures err { OnErr result (PutsPart text.old text.new (chain_words model.now answer.now)) }
{
    match answer {
        ChainAnswer::Bounds(bounds) => put_bounds(text, bounds),
        ChainAnswer::Late { task } => {
            text.put(b" late ")?;
            put_task_name(text, model, *task)
        }
    }
}

/// Appends the bounds of a chain to a text, as the words that its line says of them.
///
/// `NoMemory` comes where there is no memory for the longer text. After `NoMemory` the text ends
/// with a prefix of the words.
pub fn put_bounds(text: &mut Text, bounds: &Bounds) -> Result<(), NoMemory>
    ensures ok { OnOk result (text.new ≡ text.old ++ bounds_words bounds.now) }
    ensures err { OnErr result (PutsPart text.old text.new (bounds_words bounds.now)) }
{
    text.put(b" reaction ")?;
    text.put_number(bounds.reaction())?;
    text.put(b" age ")?;
    text.put_number(bounds.age())?;
    text.put(b" reduced ")?;
    text.put_number(bounds.reduced())
}
