//! What a run shows, as text. Times are in ticks.
ghost use Rattle.std.specs.Prelude.{◌≡◌, ◌⊎◌, OnOk, IfOk};
ghost use Rattle.cl_runs.specs.{SystemOf.system_of, Run.IsInForm};
ghost use Rattle.cl_check.specs.InOrder.{IsRunInOrder};
ghost use Rattle.cl_tight.specs.TightFindings.{tight_findings_of};
ghost use Rattle.cl_observe.specs.Observed.{GoesOnWith, IsShownInOrder, IsUnordered, IsObservationOf};

use crate::chain_lines::put_chains;
use crate::rules::put_legality;
use crate::task_lines::put_tasks;
use cl_check::{is_in_order, tasks_apart};
use cl_model::ValidModel;
use cl_run_data::RunData;
use cl_text::Text;
use cl_tight::TightFindings;
use cl_time::NoMemory;
use std::alloc::Global;

/// Builds the text of what a run shows: a title; whether the run is legal, or the first rule that
/// it breaks; and, where the run is in order, the lines of each task and of each chain in file
/// order, each number beside what is found of the model. Where it isn't in order, a last line says
/// so. Times are in ticks, and may be below 0 where the run isn't legal.
///
/// The run is in form, and the findings are those of the model. `NoMemory` comes where there is no
/// memory for what is checked and measured or for the text; it leaves nothing. It takes a time
/// proportional to the stretches of the run and, for each task, to the times of its jobs and the
/// number of its runnables, and, for each chain, to the jobs of the tasks of its groups and the
/// stretches of these tasks, whatever the number of ticks.
pub fn observe(
    alloc: Global,
    model: &ValidModel,
    findings: &TightFindings,
    run: &RunData,
) -> Result<Text, NoMemory>
    requires in_form { IsInForm (system_of model.now) run.now }
    requires found { findings.now ≡ tight_findings_of model.now }
    ensures { IfOk result (IsObservationOf model.now run.now) }
{
    let mut text = Text::new(alloc);
    text.put(b"chainlat observed 1\n")?;
    put_legality(alloc, &mut text, model, run)?;
    put_shown(alloc, &mut text, model, findings, run)?;
    Ok(text)
}

/// Puts what a run shows where it is in order, and else that it isn't.
fn put_shown(
    alloc: Global,
    text: &mut Text,
    model: &ValidModel,
    findings: &TightFindings,
    run: &RunData,
) -> Result<(), NoMemory>
    requires in_form { IsInForm (system_of model.now) run.now }
    requires found { findings.now ≡ tight_findings_of model.now }
    ensures { OnOk result
        (GoesOnWith (λ shown. IsShownInOrder model.now run.now shown ⊎ IsUnordered model.now run.now shown) text.old text.new) }
{
    if is_in_order(model, run) {
        put_measured(alloc, text, model, findings, run)
    } else {
        text.put(b"unordered\n")
    }
}

/// Puts what a run in order shows: the lines of all tasks, and of all chains.
fn put_measured(
    alloc: Global,
    text: &mut Text,
    model: &ValidModel,
    findings: &TightFindings,
    run: &RunData,
) -> Result<(), NoMemory>
    requires in_form { IsInForm (system_of model.now) run.now }
    requires in_order { IsRunInOrder (system_of model.now) run.now }
    requires found { findings.now ≡ tight_findings_of model.now }
    ensures { OnOk result (GoesOnWith (IsShownInOrder model.now run.now) text.old text.new) }
{
    let apart = tasks_apart(alloc, model, run)?;
    put_tasks(alloc, text, model, findings.tasks.as_slice(), run, &apart)?;
    put_chains(alloc, text, model, findings.chains.as_slice(), run, &apart)
}
