ghost use Rattle.std.specs.Prelude.{◌≡◌, IfOk};
ghost use Rattle.cl_runs.specs.{SystemOf.system_of, Run.IsInForm};
ghost use Rattle.cl_top.specs.{Inner.LegalRuns.{IsCheckedAs, IsTracedAs}, OfTrace.{trace_refused, trace_illegal}};

use cl_check::{Rule, RunFault, check_run};
use cl_engine::{Outcome, status};
use cl_model::ValidModel;
use cl_observe::{breaker, rule_words};
use cl_run_data::RunData;
use cl_text::Text;
use cl_time::NoMemory;
use cl_trace::{TraceFault, read_trace};
use std::alloc::Global;

/// What the reading of a trace gave.
#[derive(Drop)]
pub(super) enum LegalRun {
    /// The run of the trace, which is legal.
    Legal(RunData),
    /// There is no legal run, and this is the outcome of the command.
    Stopped(Outcome),
}

/// Reads the legal run of the text of a trace, or makes the outcome of the first bad line of the
/// text or of the first rule that its run breaks.
pub(super) fn legal_run(
    alloc: Global,
    model: &ValidModel,
    text: &[u8],
) -> Result<LegalRun, NoMemory>
    ensures { IfOk result (IsTracedAs model.now text.now) }
{
    match read_trace(alloc, model, text) {
        Ok(run) => checked_run(alloc, model, run),
        Err(TraceFault::BadLine { line }) => Ok(LegalRun::Stopped(refused(alloc, line)?)),
        Err(TraceFault::NoMemory) => Err(NoMemory),
    }
}

/// Checks a run: gives it back where it is legal, or the outcome of the first rule that it breaks.
fn checked_run(alloc: Global, model: &ValidModel, run: RunData) -> Result<LegalRun, NoMemory>
    requires { IsInForm (system_of model.now) run }
    ensures { IfOk result (IsCheckedAs model.now run) }
{
    match check_run(alloc, model, &run) {
        Ok(()) => Ok(LegalRun::Legal(run)),
        Err(RunFault::Illegal { rule, place, tick }) => {
            Ok(LegalRun::Stopped(illegal(alloc, model, rule, place, tick)?))
        }
        Err(RunFault::NoMemory) => Err(NoMemory),
    }
}

/// Makes the outcome of a trace whose first bad line is line `number`.
pub(super) fn refused(alloc: Global, number: u64) -> Result<Outcome, NoMemory>
    ensures { IfOk result (λ outcome. outcome ≡ trace_refused number) }
{
    let mut text = Text::new(alloc);
    text.put(b"trace refused line ")?;
    text.put_number(number)?;
    text.put(b"\n")?;
    Ok(Outcome {
        status: status::TRACE_REFUSED,
        text,
    })
}

/// Makes the outcome of a run that first breaks `rule`, at a tick, by the core of number `place`
/// for its schedule, and by the task of that number for every other rule.
pub(super) fn illegal(
    alloc: Global,
    model: &ValidModel,
    rule: Rule,
    place: u32,
    tick: u64,
) -> Result<Outcome, NoMemory>
    ensures { IfOk result (λ outcome. outcome ≡ trace_illegal model.now rule place tick) }
{
    let mut text = Text::new(alloc);
    text.put(b"trace illegal ")?;
    text.put(rule_words(rule))?;
    text.put(breaker(model, rule, place))?;
    text.put(b" tick ")?;
    text.put_number(tick)?;
    text.put(b"\n")?;
    Ok(Outcome {
        status: status::TRACE_REFUSED,
        text,
    })
}
