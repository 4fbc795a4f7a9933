//! Reading a trace as a run.
ghost use Rattle.std.specs.Prelude.{◌≡◌, ◌+◌, ◌≤◌, ◌-◌, length, take, IfOk};
ghost use Rattle.cl_text.specs.LinesFault.{IfBadLine, ReadsThis};
ghost use Rattle.cl_model.specs.Validity.{IsValid};
ghost use Rattle.cl_runs.specs.Run.{Run};
ghost use Rattle.cl_trace.specs.{declared.limits.TheConstants.MOST_TRACE_TICKS, Rules.{IsTraceOf, IsBadTraceLine}, Inner.{Bodies.{IsBody, IsReadSoFar, AreCores}, Pieces.{AreTasksNamed, newlines}}};

use crate::job_lines::table_after;
use crate::lines::ticks_after;
use crate::pieces::after;
use crate::run_lines::runs_after;
use cl_model::{List, ValidModel};
use cl_run_data::RunData;
use cl_runs::{Job, JobTable};
use cl_text::LinesFault;
use cl_time::NoMemory;
use std::alloc::Global;

/// Why a text isn't read as a run.
pub type TraceFault = LinesFault;

/// Reads the job lines and run lines after the first two lines, as many as follow, and returns
/// their run and the rest of the text.
fn body_after<'a>(
    alloc: Global,
    model: &ValidModel,
    ticks: u64,
    text: &'a [u8],
) -> Result<(RunData, &'a [u8]), NoMemory>
    ensures body { IfOk result (λ read. IsBody model.now ticks text.now read.0 read.1.now) }
    ensures named { IfOk result (λ _. AreTasksNamed model.now) }
    ensures valid { IfOk result (λ _. IsValid model.now) }
{
    let mut jobs = List::new(alloc);
    match table_after(alloc, model, text, &mut jobs) {
        Ok(rest) => runs_of(alloc, model, JobTable { ticks, jobs }, rest),
        Err(no_memory) => Err(no_memory),
    }
}

/// Reads the run lines that follow, and returns the run of them and of a job table, and the rest of
/// the text.
fn runs_of<'a>(
    alloc: Global,
    model: &ValidModel,
    table: JobTable,
    text: &'a [u8],
) -> Result<(RunData, &'a [u8]), NoMemory>
    requires { AreTasksNamed model.now }
    ensures valid { IsValid model.now }
    ensures table { IfOk result (λ read. read.0.table ≡ table) }
    ensures cores { IfOk result (λ read. length read.0.entries ≡ length model.now.cores) }
    ensures runs { IfOk result
        (λ read. AreCores model.now table.ticks (length model.now.cores) text.now read.0 read.1.now) }
{
    let mut run = RunData::start(alloc, table, model.cores())?;
    match runs_after(model, &mut run, text) {
        Ok(rest) => Ok((run, rest)),
        Err(no_memory) => Err(no_memory),
    }
}

/// Counts in which line of the text, from 1, what is left of it begins.
fn line_at(text: &[u8], left: &[u8]) -> u64
    requires { length left.now ≤ length text.now }
    ensures { result ≡ newlines (take (length text.now - length left.now) text.now) + 1 }
{
    let read = &text[..text.len() - left.len()];
    let lines = read.iter().filter(|byte| **byte == b'\n').count();
    lines as u64 + 1
}

/// Reads a trace as a run: the jobs of each task, and the entry of each core in each tick. Times
/// are in ticks.
///
/// The run is in form and within the limits of a trace, and the text spells it. A text that is no
/// trace gives `BadLine`, unless memory runs out before: its first line, counted from 1, that
/// breaks its rule or is missing. `NoMemory` comes where there is no memory for the run. Either
/// leaves nothing.
pub fn read_trace(alloc: Global, model: &ValidModel, text: &[u8]) -> Result<RunData, TraceFault>
    ensures run { IfOk result (IsTraceOf model.now text.now) }
    ensures bad_line { IfBadLine result (IsBadTraceLine model.now text.now) }
    ensures only { (run : Run) → IsTraceOf model.now text.now run → ReadsThis result run }
{
    let Some(behind_title) = after(text, b"chainlat trace 1\n") else {
        return Err(TraceFault::BadLine { line: 1 });
    };
    let Some((ticks, behind_ticks)) = ticks_after(behind_title) else {
        return Err(TraceFault::BadLine { line: 2 });
    };
    match body_after(alloc, model, ticks, behind_ticks) {
        Ok((run, left)) => ended(model, text, run, left),
        Err(NoMemory) => Err(TraceFault::NoMemory),
    }
}

/// Returns the run where exactly the last line is left of the text, and otherwise the first bad
/// line.
fn ended(model: &ValidModel, text: &[u8], run: RunData, left: &[u8]) -> Result<RunData, TraceFault>
    requires body { IsReadSoFar model.now text.now run left.now }
    requires named { AreTasksNamed model.now }
    requires valid { IsValid model.now }
    ensures run { IfOk result (IsTraceOf model.now text.now) }
    ensures bad_line { IfBadLine result (IsBadTraceLine model.now text.now) }
    ensures only { (run : Run) → IsTraceOf model.now text.now run → ReadsThis result run }
{
    match after(left, b"end\n") {
        Some(nothing) if nothing.is_empty() => Ok(run),
        Some(more) => Err(TraceFault::BadLine {
            line: line_at(text, more),
        }),
        None => Err(TraceFault::BadLine {
            line: line_at(text, left),
        }),
    }
}
