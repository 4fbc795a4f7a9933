ghost use Rattle.std.specs.Prelude.{◌≡◌, IfOk};
ghost use Rattle.cl_check.specs.{declared.run_fault.RunFault.TheVariants.Illegal, Legality.IsFirstBroken};
ghost use Rattle.cl_runs.specs.{Run.IsInForm, SystemOf.system_of};
ghost use Rattle.cl_traces.specs.BadTraceLines.{bad_trace_text};
ghost use Rattle.cl_top.specs.{OfTrace.trace_refused, Commands.CheckFile.{with_said, IsCheckedRun, HasMendedRule, IsOfTraceFile}};

use super::check_list::accepted_file;
use super::legal_run::{illegal, refused};
use cl_check::{Rule, RunFault, check_run};
use cl_engine::Outcome;
use cl_model::ValidModel;
use cl_run_data::RunData;
use cl_time::NoMemory;
use cl_trace::{TraceFault, read_trace};
use cl_traces::{put_bad_trace_line, put_broken_rule};
use std::alloc::Global;

/// Finds the outcome of `check` for a valid model and the text of a trace: that its run is legal;
/// or its first bad line, or the first rule that its run breaks, and what to mend there.
pub(super) fn checked_trace(
    alloc: Global,
    model: &ValidModel,
    text: &[u8],
) -> Result<Outcome, NoMemory>
    ensures { IfOk result (IsOfTraceFile model.now text.now) }
{
    match read_trace(alloc, model, text) {
        Ok(run) => checked_run(alloc, model, &run),
        Err(TraceFault::BadLine { line }) => mended_line(alloc, model, text, line),
        Err(TraceFault::NoMemory) => Err(NoMemory),
    }
}

/// Makes the outcome of a trace whose first bad line is line `number`: what to mend in it.
fn mended_line(
    alloc: Global,
    model: &ValidModel,
    text: &[u8],
    number: u64,
) -> Result<Outcome, NoMemory>
    ensures { IfOk result (λ outcome.
        outcome ≡ with_said (trace_refused number) (bad_trace_text model.now text.now number)) }
{
    let mut outcome = refused(alloc, number)?;
    put_bad_trace_line(&mut outcome.text, model, text, number as usize)?;
    Ok(outcome)
}

/// Finds the outcome of a run: that it is legal, or the first rule that it breaks.
fn checked_run(alloc: Global, model: &ValidModel, run: &RunData) -> Result<Outcome, NoMemory>
    requires { IsInForm (system_of model.now) run.now }
    ensures { IfOk result (IsCheckedRun model.now run.now) }
{
    match check_run(alloc, model, run) {
        Ok(()) => accepted_file(alloc),
        Err(RunFault::Illegal { rule, place, tick }) => {
            mended_rule(alloc, model, run, rule, place, tick)
        }
        Err(RunFault::NoMemory) => Err(NoMemory),
    }
}

/// Makes the outcome of a run that first breaks this rule: what to mend for it.
fn mended_rule(
    alloc: Global,
    model: &ValidModel,
    run: &RunData,
    rule: Rule,
    place: u32,
    tick: u64,
) -> Result<Outcome, NoMemory>
    requires in_form { IsInForm (system_of model.now) run.now }
    requires broken { IsFirstBroken (system_of model.now) run.now (Illegal rule place tick) }
    ensures { IfOk result (HasMendedRule model.now run.now) }
{
    let mut outcome = illegal(alloc, model, rule, place, tick)?;
    put_broken_rule(&mut outcome.text, alloc, model, run, rule, place, tick)?;
    Ok(outcome)
}
