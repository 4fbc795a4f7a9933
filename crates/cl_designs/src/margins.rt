//! The text of the margins of a model.
ghost use Rattle.std.specs.Prelude.{◌≡◌, ℕ, ◌<◌, ◌≤◌, ◌++◌, length, OnOk, IfOk, IfSome};
ghost use Rattle.std.specs.List.{flat_map, range_with_len};
ghost use Rattle.cl_analyse.specs.Verdicts.{is_met};
ghost use Rattle.cl_tight.specs.TightFindings.{tight_findings_of};
ghost use Rattle.cl_scale.specs.declared.percent.TheConstants.{MOST_PERCENT};
ghost use Rattle.cl_margin.specs.{declared.{answer.Breaks.TheVariants.{Task, Requirement}, whose.Whose.TheVariants.OneTask}, Margins.{is_met_task, is_met_requirement, margin_at, IsMargin, AreMargins}};
ghost use Rattle.cl_designs.specs.Margins.{requirement_name, late_task, late_line, late_lines, unmet_requirement, unmet_line, unmet_lines, broken_words, breaks_words, IsBreakOf, all_line, margin_line, task_margin_line, margin_text, IsMarginTextOf};

use cl_analyse::Verdict;
use cl_margin::{Breaks, Margin, Margins, grown_time, margins};
use cl_model::{List, ValidModel};
use cl_report::{put_name, put_task_name};
use cl_text::Text;
use cl_tight::{TightFindings, tighten};
use cl_time::{NoMemory, Steps};
use std::alloc::Global;
use std::sync::ledger::Ledger;

/// Makes the text of the margins of a model: a title, a line for each task and requirement that
/// isn't met as the model stands, a line with the percentage to which the greatest execution times
/// of all tasks may grow, and one for each task with the percentage to which its own may grow, and
/// from how many ticks to how many. Behind a percentage below 1,000 stands what breaks first at one
/// percent more.
///
/// `NoMemory` comes where there is no memory for what is found or for the text; it leaves nothing.
pub fn margin_text<L: Ledger>(
    alloc: Global,
    model: &ValidModel,
    steps: &mut Steps<L>,
) -> Result<Text, NoMemory>
    ensures { IfOk result (IsMarginTextOf model.now) }
{
    let found = tighten(alloc, model, steps)?;
    let margins = margins(alloc, model, &found, steps)?;
    text_of(alloc, model, &found, &margins)
}

/// Makes the text of these margins.
fn text_of(
    alloc: Global,
    model: &ValidModel,
    found: &TightFindings,
    margins: &Margins,
) -> Result<Text, NoMemory>
    requires findings { found.now ≡ tight_findings_of model.now }
    requires margins { AreMargins model.now margins.now }
    ensures { IfOk result (λ text. text ≡ margin_text model.now found.now margins.now) }
{
    let mut text = Text::new(alloc);
    text.put(b"chainlat margin 1\n")?;
    put_late(&mut text, model, found)?;
    put_unmet(&mut text, model, found)?;
    put_all(&mut text, model, &margins.all)?;
    put_tasks(&mut text, model, &margins.tasks)?;
    Ok(text)
}

/// Puts a line for each late task.
fn put_late(text: &mut Text, model: &ValidModel, found: &TightFindings) -> Result<(), NoMemory>
    requires findings { found.now ≡ tight_findings_of model.now }
    ensures { OnOk result (text.new ≡ text.old ++ late_lines model.now found.now) }
{
    for task in 0..model.tasks() {
        put_if_late(text, model, found, task)?;
    }
    Ok(())
}

/// Checks whether a task is met: it isn't late.
fn is_met_task(found: &TightFindings, task: u32) -> bool
    requires { task < length found.now.tasks }
    ensures { result ≡ is_met_task found.now task }
{
    !found.tasks.as_slice()[task as usize].is_late()
}

/// Puts the line of a task if it is late.
fn put_if_late(
    text: &mut Text,
    model: &ValidModel,
    found: &TightFindings,
    task: u32,
) -> Result<(), NoMemory>
    requires task { task < length model.now.tasks }
    requires found { task < length found.now.tasks }
    ensures { OnOk result (text.new ≡ text.old ++ late_line model.now found.now task) }
{
    if is_met_task(found, task) {
        Ok(())
    } else {
        put_late_task(text, model, task)
    }
}

/// Puts the line of a late task.
fn put_late_task(text: &mut Text, model: &ValidModel, task: u32) -> Result<(), NoMemory>
    requires { task < length model.now.tasks }
    ensures { OnOk result (text.new ≡ text.old ++ late_task model.now task) }
{
    text.put(b"unmet task ")?;
    put_task_name(text, model, task)?;
    text.put(b"\n")
}

/// Puts a line for each requirement that isn't met.
fn put_unmet(text: &mut Text, model: &ValidModel, found: &TightFindings) -> Result<(), NoMemory>
    requires findings { found.now ≡ tight_findings_of model.now }
    ensures { OnOk result (text.new ≡ text.old ++ unmet_lines model.now found.now) }
{
    for requirement in 0..model.plain().requirements.len() {
        put_if_unmet(text, model, found, requirement)?;
    }
    Ok(())
}

/// Checks whether a verdict is that a requirement is met.
fn is_met(verdict: &Verdict) -> bool
    ensures { result ≡ is_met verdict.now }
{
    matches!(verdict, Verdict::Met { .. })
}

/// Checks whether a requirement is met.
fn is_met_requirement(found: &TightFindings, requirement: usize) -> bool
    requires { requirement < length found.now.verdicts }
    ensures { result ≡ is_met_requirement found.now requirement }
{
    is_met(&found.verdicts.as_slice()[requirement])
}

/// Puts the line of a requirement if it isn't met.
fn put_if_unmet(
    text: &mut Text,
    model: &ValidModel,
    found: &TightFindings,
    requirement: usize,
) -> Result<(), NoMemory>
    requires requirement { requirement < length model.now.requirements }
    requires found { requirement < length found.now.verdicts }
    ensures { OnOk result (text.new ≡ text.old ++ unmet_line model.now found.now requirement) }
{
    if is_met_requirement(found, requirement) {
        Ok(())
    } else {
        put_unmet_requirement(text, model, requirement)
    }
}

/// Puts the line of a requirement that isn't met.
fn put_unmet_requirement(
    text: &mut Text,
    model: &ValidModel,
    requirement: usize,
) -> Result<(), NoMemory>
    requires { requirement < length model.now.requirements }
    ensures { OnOk result (text.new ≡ text.old ++ unmet_requirement model.now requirement) }
{
    text.put(b"unmet requirement ")?;
    put_requirement_name(text, model, requirement)?;
    text.put(b"\n")
}

/// Puts the name of a requirement.
fn put_requirement_name(
    text: &mut Text,
    model: &ValidModel,
    requirement: usize,
) -> Result<(), NoMemory>
    requires { requirement < length model.now.requirements }
    ensures { OnOk result (text.new ≡ text.old ++ requirement_name model.now requirement) }
{
    let requirements = model.plain().requirements.as_slice();
    put_name(text, &requirements[requirement].name)
}

/// Puts the line of all tasks.
fn put_all(text: &mut Text, model: &ValidModel, margin: &Margin) -> Result<(), NoMemory>
    requires { IfSome margin.now.breaks (IsBreakOf model.now) }
    ensures { OnOk result (text.new ≡ text.old ++ all_line model.now margin.now) }
{
    text.put(b"all percent ")?;
    text.put_number(margin.percent)?;
    put_then(text, model, margin)?;
    text.put(b"\n")
}

/// Puts the lines of all tasks, each alone.
fn put_tasks(text: &mut Text, model: &ValidModel, margins: &List<Margin>) -> Result<(), NoMemory>
    requires one_a_task { length margins.now ≡ length model.now.tasks }
    requires margins { (task : ℕ) → task < length model.now.tasks
        → IsMargin model.now (OneTask task) (margin_at margins.now task) }
    ensures { OnOk result (text.new ≡ text.old ++ flat_map (task_margin_line model.now margins.now) (range_with_len 0 (length model.now.tasks))) }
{
    for task in 0..model.tasks() {
        put_task(text, model, task, &margins.as_slice()[task as usize])?;
    }
    Ok(())
}

/// Puts the line of a task.
fn put_task(text: &mut Text, model: &ValidModel, task: u32, margin: &Margin) -> Result<(), NoMemory>
    requires task { task < length model.now.tasks }
    requires percent { margin.now.percent ≤ MOST_PERCENT }
    requires breaks { IfSome margin.now.breaks (IsBreakOf model.now) }
    ensures { OnOk result (text.new ≡ text.old ++ margin_line model.now margin.now task) }
{
    text.put(b"task ")?;
    put_task_name(text, model, task)?;
    text.put(b" percent ")?;
    text.put_number(margin.percent)?;
    text.put(b" time ")?;
    text.put_number(model.time_of(task))?;
    text.put(b" to ")?;
    text.put_number(grown_time(model, task, margin.percent))?;
    put_then(text, model, margin)?;
    text.put(b"\n")
}

/// Puts what breaks first, if anything does.
fn put_then(text: &mut Text, model: &ValidModel, margin: &Margin) -> Result<(), NoMemory>
    requires { IfSome margin.now.breaks (IsBreakOf model.now) }
    ensures { OnOk result (text.new ≡ text.old ++ breaks_words model.now margin.now.breaks) }
{
    match margin.breaks {
        None => Ok(()),
        Some(breaks) => put_breaks(text, model, breaks),
    }
}

/// Puts what breaks first.
fn put_breaks(text: &mut Text, model: &ValidModel, breaks: Breaks) -> Result<(), NoMemory>
    requires { IsBreakOf model.now breaks }
    ensures { OnOk result (text.new ≡ text.old ++ broken_words model.now breaks) }
{
    match breaks {
        Breaks::Task { task } => put_broken_task(text, model, task),
        Breaks::Requirement { requirement } => put_broken_requirement(text, model, requirement),
        Breaks::Limit => text.put(b" then limit"),
    }
}

/// Puts the task that breaks first.
fn put_broken_task(text: &mut Text, model: &ValidModel, task: u32) -> Result<(), NoMemory>
    requires { task < length model.now.tasks }
    ensures { OnOk result (text.new ≡ text.old ++ broken_words model.now (Task task)) }
{
    text.put(b" then task ")?;
    put_task_name(text, model, task)
}

/// Puts the requirement that breaks first.
fn put_broken_requirement(
    text: &mut Text,
    model: &ValidModel,
    requirement: u32,
) -> Result<(), NoMemory>
    requires { requirement < length model.now.requirements }
    ensures { OnOk result (text.new ≡ text.old ++ broken_words model.now (Requirement requirement)) }
{
    text.put(b" then requirement ")?;
    put_requirement_name(text, model, requirement as usize)
}
