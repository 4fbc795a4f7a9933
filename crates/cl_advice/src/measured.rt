//! The line of the number that a refused one is measured against. Times are in ticks.
ghost use Rattle.std.specs.Prelude.{◌≡◌, ◌/◌, ◌++◌, OnOk, IfSome, find};
ghost use Rattle.std.specs.Option.{option_copied};
ghost use Rattle.cl_model.specs.Ranges.{IsKindInRange, IsInRange};
ghost use Rattle.cl_advice.specs.Measured.{below_period_line, offset_line, greatest_distance_line, fitting_text, burst_line, stimulus_with, kind_for, deadline_line, found_jitter_line, jitter_line, spans, span_line, spanned_line, greatest_time_line, lengths_line, line_of_stimulus};
ghost use Rattle.cl_advice.specs.Measured.{line_of_task, measured_by, measured_line, jitter_found};

use crate::sentence::{put_named, put_numbered};
use crate::with::{item_if, runnable_of};
use cl_model::{
    ChainDef, Code, MOST_DISTANCES, Name, Place, Refusal, RunnableDef, StimulusDef, StimulusKind,
    SystemModel, TaskDef,
};
use cl_text::Text;
use cl_time::NoMemory;
use cl_valid::spans_too_many;

/// What is said of a task and the kind of its stimulus.
#[derive(Clone, Copy)]
enum Said {
    /// The most that its deadline may be.
    Deadline,
    /// Below what the jitter is to be.
    Jitter,
    /// The jitter.
    FoundJitter,
    /// The most that its deadline may be by the tasks of higher priority.
    Span,
}

/// Appends that an offset below this period is wanted, and whose period it is.
fn put_below_period(text: &mut Text, period: u64, name: &Name) -> Result<(), NoMemory>
    ensures { OnOk result (text.new ≡ text.old ++ below_period_line period name.now) }
{
    put_named(
        text,
        b"wanted a whole number below ",
        period,
        b", the period of ",
        name,
    )
}

/// Appends below which period an offset is wanted.
fn put_offset(text: &mut Text, stimulus: &StimulusDef) -> Result<(), NoMemory>
    ensures { OnOk result (text.new ≡ text.old ++ offset_line stimulus.now stimulus.now.kind) }
{
    match stimulus.kind {
        StimulusKind::Periodic { period, .. } | StimulusKind::Burst { period, .. } => {
            put_below_period(text, period, &stimulus.name)
        }
        StimulusKind::Sporadic { .. } => Ok(()),
    }
}

/// Appends from which least distance on a greatest one is wanted.
fn put_greatest_distance(text: &mut Text, kind: StimulusKind) -> Result<(), NoMemory>
    ensures { OnOk result (text.new ≡ text.old ++ greatest_distance_line kind) }
{
    match kind {
        StimulusKind::Sporadic { least, .. } => {
            put_numbered(text, b"wanted at least ", least, b", the least distance")
        }
        _ => Ok(()),
    }
}

/// Returns how many jobs of this distance fit a period.
fn jobs_within(period: u64, distance: u64) -> u64
    ensures { result ≡ period / distance }
{
    period.checked_div(distance).unwrap_or(0)
}

/// Appends which burst fits a period.
fn put_fitting(text: &mut Text, period: u64, distance: u64) -> Result<(), NoMemory>
    ensures { OnOk result (text.new ≡ text.old ++ fitting_text period distance) }
{
    let jobs = jobs_within(period, distance);
    if jobs >= 2 {
        text.put(b"a count of at most ")?;
        text.put_number(jobs)?;
        text.put(b", with this distance")
    } else if period >= 2 {
        text.put(b"a distance of at most ")?;
        text.put_number(period / 2)?;
        text.put(b", for a count of 2")
    } else {
        text.put(b"a period of 2 or more")
    }
}

/// Appends which burst is wanted.
fn put_burst(text: &mut Text, kind: StimulusKind) -> Result<(), NoMemory>
    ensures { OnOk result (text.new ≡ text.old ++ burst_line kind) }
{
    match kind {
        StimulusKind::Burst {
            period,
            distance,
            ..
        } => {
            text.put(b"wanted ")?;
            put_fitting(text, period, distance)?;
            text.put(b"\n")
        }
        _ => Ok(()),
    }
}

/// Finds the first stimulus of a name.
fn stimulus_with<'a>(model: &'a SystemModel, name: &Name) -> Option<&'a StimulusDef>
    ensures { option_copied result ≡ stimulus_with model.now name.now }
{
    model.stimuli.iter().find(|stimulus| *name == stimulus.name)
}

/// Finds the kind of the stimulus of a task.
fn kind_for(model: &SystemModel, task: &TaskDef) -> Option<StimulusKind>
    ensures kind { result ≡ kind_for model.now task.now }
    ensures in_range { IsInRange model.now → IfSome result IsKindInRange }
{
    match stimulus_with(model, &task.stimulus) {
        Some(stimulus) => Some(stimulus.kind),
        None => None,
    }
}

/// Appends up to which least distance a deadline is wanted.
fn put_deadline(text: &mut Text, task: &TaskDef, kind: StimulusKind) -> Result<(), NoMemory>
    ensures { OnOk result (text.new ≡ text.old ++ deadline_line task.now kind) }
{
    let least = kind.least_distance();
    put_named(
        text,
        b"wanted at most ",
        least,
        b", the least distance of ",
        &task.stimulus,
    )
}

/// Appends below which deadline a jitter is wanted.
fn put_jitter(text: &mut Text, task: &TaskDef, kind: StimulusKind) -> Result<(), NoMemory>
    ensures { OnOk result (text.new ≡ text.old ++ jitter_line task.now kind) }
{
    let deadline = task.deadline_under(kind);
    put_named(
        text,
        b"wanted a jitter below ",
        deadline,
        b", the deadline of ",
        &task.name,
    )
}

/// Appends the jitter that was found.
fn put_found_jitter(text: &mut Text, task: &TaskDef, kind: StimulusKind) -> Result<(), NoMemory>
    ensures { OnOk result (text.new ≡ text.old ++ found_jitter_line task.now kind) }
{
    text.put(b"found ")?;
    text.put_number(kind.greatest_jitter())?;
    text.put(b"\n")?;
    Ok(())
}

/// Whether the deadline of a task of this kind of stimulus spans too many distances of another task
/// that has a higher priority on its core.
fn spans(model: &SystemModel, task: &TaskDef, kind: StimulusKind, above: &TaskDef) -> bool
    ensures { result ≡ spans model.now task.now kind above.now }
{
    if task.core != above.core || task.priority >= above.priority {
        return false;
    }
    match kind_for(model, above) {
        Some(its) => spans_too_many(task.deadline_under(kind), its),
        None => false,
    }
}

/// Finds the first task of which a deadline spans too many distances.
fn spanned<'a>(model: &'a SystemModel, task: &TaskDef, kind: StimulusKind) -> Option<&'a TaskDef>
    ensures { option_copied result ≡ find (spans model.now task.now kind) model.now.tasks }
{
    model
        .tasks
        .iter()
        .find(|above| spans(model, task, kind, above))
}

/// Appends how many distances of a task a deadline may span.
fn put_span(text: &mut Text, above: &TaskDef, kind: StimulusKind) -> Result<(), NoMemory>
    requires { IsKindInRange kind }
    ensures { OnOk result (text.new ≡ text.old ++ span_line above.now kind) }
{
    let most = (MOST_DISTANCES * kind.least_distance()).saturating_sub(kind.greatest_jitter());
    text.put(b"wanted at most ")?;
    text.put_number(most)?;
    text.put(b", 1000000 times the least distance of ")?;
    text.put(above.name.as_slice())?;
    text.put(b" less its jitter")?;
    text.put(b"\n")?;
    Ok(())
}

/// Appends how many distances a deadline may span of the first task of which it spans too many.
fn put_spanned(
    text: &mut Text,
    model: &SystemModel,
    task: &TaskDef,
    kind: StimulusKind,
) -> Result<(), NoMemory>
    requires { IsInRange model.now }
    ensures { OnOk result (text.new ≡ text.old ++ spanned_line model.now task.now kind) }
{
    let Some(above) = spanned(model, task, kind) else {
        return Ok(());
    };
    match kind_for(model, above) {
        Some(its) => put_span(text, above, its),
        None => Ok(()),
    }
}

/// Appends what is said of the task at a place, if it has a stimulus.
fn put_of_task(
    text: &mut Text,
    model: &SystemModel,
    place: Place,
    said: Said,
) -> Result<(), NoMemory>
    requires { IsInRange model.now }
    ensures { OnOk result
        (text.new ≡ text.old ++ line_of_task model.now place said) }
{
    let Some(task) = item_if(&model.tasks, place.item) else {
        return Ok(());
    };
    let Some(kind) = kind_for(model, task) else {
        return Ok(());
    };
    match said {
        Said::Deadline => put_deadline(text, task, kind),
        Said::Jitter => put_jitter(text, task, kind),
        Said::FoundJitter => put_found_jitter(text, task, kind),
        Said::Span => put_spanned(text, model, task, kind),
    }
}

/// Appends from which least time on a greatest one is wanted.
fn put_greatest_time(text: &mut Text, runnable: &RunnableDef) -> Result<(), NoMemory>
    ensures { OnOk result (text.new ≡ text.old ++ greatest_time_line runnable.now) }
{
    put_numbered(
        text,
        b"wanted at least ",
        runnable.least,
        b", the least time",
    )
}

/// Appends how many runnables and labels a chain has.
fn put_lengths(text: &mut Text, chain: &ChainDef) -> Result<(), NoMemory>
    ensures { OnOk result (text.new ≡ text.old ++ lengths_line chain.now) }
{
    text.put(b"wanted one label fewer than runnables: ")?;
    text.put_number(chain.runnables.len() as u64)?;
    text.put(b" runnables, ")?;
    text.put_number(chain.labels.len() as u64)?;
    text.put(b" labels")?;
    text.put(b"\n")?;
    Ok(())
}

/// Appends what is wanted of a number of the stimulus at a place.
fn put_of_stimulus(text: &mut Text, model: &SystemModel, refusal: Refusal) -> Result<(), NoMemory>
    ensures { OnOk result (text.new ≡ text.old ++ line_of_stimulus model.now refusal.place refusal.code) }
{
    let Some(stimulus) = item_if(&model.stimuli, refusal.place.item) else {
        return Ok(());
    };
    match refusal.code {
        Code::M27 => put_offset(text, stimulus),
        Code::M28 => put_greatest_distance(text, stimulus.kind),
        Code::M47 => put_burst(text, stimulus.kind),
        _ => Ok(()),
    }
}

/// Appends what is wanted of a number, by the code of a refusal.
fn put_by(text: &mut Text, model: &SystemModel, refusal: Refusal) -> Result<(), NoMemory>
    requires { IsInRange model.now }
    ensures { OnOk result (text.new ≡ text.old ++ measured_by model.now refusal.place refusal.code) }
{
    let place = refusal.place;
    match refusal.code {
        Code::M27 | Code::M28 | Code::M47 => put_of_stimulus(text, model, refusal),
        Code::M32 => put_of_task(text, model, place, Said::Deadline),
        Code::M33 => put_of_task(text, model, place, Said::Jitter),
        Code::M36 => match runnable_of(model, place) {
            Some(runnable) => put_greatest_time(text, runnable),
            None => Ok(()),
        },
        Code::M42 => put_of_task(text, model, place, Said::Span),
        Code::M43 => match item_if(&model.chains, place.item) {
            Some(chain) => put_lengths(text, chain),
            None => Ok(()),
        },
        _ => Ok(()),
    }
}

/// Appends the line of what is wanted of a number, nothing where there is no model.
pub(crate) fn put_measured(
    text: &mut Text,
    model: Option<&SystemModel>,
    refusal: Refusal,
) -> Result<(), NoMemory>
    requires { IfSome (option_copied model) IsInRange }
    ensures { OnOk result (text.new ≡ text.old ++ measured_line (option_copied model.entry) refusal) }
{
    match model {
        Some(model) => put_by(text, model, refusal),
        None => Ok(()),
    }
}

/// Appends the jitter of the stimulus of the task at a place, nothing where there is no model.
pub(crate) fn put_jitter_found(
    text: &mut Text,
    model: Option<&SystemModel>,
    place: Place,
) -> Result<(), NoMemory>
    requires { IfSome (option_copied model) IsInRange }
    ensures { OnOk result
        (text.new ≡ text.old ++ jitter_found (option_copied model.entry) place) }
{
    match model {
        Some(model) => put_of_task(text, model, place, Said::FoundJitter),
        None => Ok(()),
    }
}
