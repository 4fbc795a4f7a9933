//! Questions on the run of a trace.
ghost use Rattle.cl_runs.specs.{SystemOf.system_of, Run.IsInForm};

use crate::job_chains;
use crate::plain_models::compared;
use crate::words::{said, unread, word};
use cl_check::{RunFault, check_run};
use cl_io::Words;
use cl_model::ValidModel;
use cl_run_data::RunData;
use cl_text::Text;
use cl_time::NoMemory;
use cl_trace::{read_trace, write_trace};
use std::alloc::Global;

/// Answers a question on the run of a trace, or names the trace's first bad line.
pub(crate) fn of_trace(
    alloc: Global,
    words: &Words,
    model: &ValidModel,
    trace: &[u8],
) -> Result<Text, NoMemory> {
    match read_trace(alloc, model, trace) {
        Ok(run) => of_run(alloc, words, model, &run, trace),
        Err(fault) => unread(alloc, fault),
    }
}

/// Answers `trace MODEL TRACE`: the trace as it is written again. Every other question is on a
/// legal run.
fn of_run(
    alloc: Global,
    words: &Words,
    model: &ValidModel,
    run: &RunData,
    trace: &[u8],
) -> Result<Text, NoMemory>
    requires { IsInForm (system_of model.now) run.now }
{
    match word(words, 1) {
        "trace" => compared(alloc, write_trace(alloc, model, run)?, trace),
        _ => checked(alloc, words, model, run),
    }
}

/// Answers `check MODEL TRACE`: that the run is legal, or the first rule that it breaks. That rule
/// is also the answer to every other question on an illegal run.
fn checked(
    alloc: Global,
    words: &Words,
    model: &ValidModel,
    run: &RunData,
) -> Result<Text, NoMemory>
    requires { IsInForm (system_of model.now) run.now }
{
    match check_run(alloc, model, run) {
        Ok(()) => job_chains::of_legal(alloc, words, model, run),
        Err(RunFault::Illegal { rule, place, tick }) => {
            said(
                alloc,
                format!(in alloc; "{rule:?} {place} {tick}")?.as_str(),
            )
        }
        Err(RunFault::NoMemory) => Err(NoMemory),
    }
}
