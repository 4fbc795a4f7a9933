//! Reading the run lines of a trace as the entries of each core.
ghost use Rattle.std.specs.Prelude.{◌≡◌, ◌<◌, ◌≤◌, ◌≢◌, ◌↔◌, ◌++◌, ℕ, List, [], length, IsTrue, OnOk, IfOk, IfSome, IfNone};
ghost use Rattle.cl_model.specs.Validity.{IsValid};
ghost use Rattle.cl_runs.specs.Run.{core_entries};
ghost use Rattle.cl_trace.specs.{declared.lines.RunLine.RunLine, Trace.{Runs, item_text}, Inner.{Bodies.{IsStretchWithin, FitsEntries, AreAllEntriesOf, IsRunWith, AreCores, entries_appended}, Pieces.AreTasksNamed}};

use crate::guesses::Guesses;
use crate::lines::{RunLine, run_after};
use cl_model::ValidModel;
use cl_run_data::RunData;
use cl_time::NoMemory;

/// Checks whether a stretch may be appended to the entries of a core so far: its task is of that
/// core, it begins where they end or later, and no entry of that task stands right before it.
fn fits_core(model: &ValidModel, run: &RunData, core: u32, line: RunLine) -> bool
    requires is_core { core < length run.now.entries }
    requires is_task { line.task < length model.now.tasks }
    ensures { IsTrue result ↔ FitsEntries model.now core (core_entries run.now core) line.task line.from }
{
    let filled = run.filled(core);
    model.core_of(line.task) == core
        && filled <= line.from
        && (filled < line.from || filled == 0 || run.last_entry(core) != Some(line.task))
}

/// Reads the run line that the text begins with, where its stretch may be appended to the entries
/// of a core so far, and returns the stretch and the rest of the text.
fn stretch_after<'a>(
    model: &ValidModel,
    run: &RunData,
    core: u32,
    text: &'a [u8],
    guesses: &mut Guesses,
) -> Option<(RunLine, &'a [u8])>
    requires named { AreTasksNamed model.now }
    requires valid { IsValid model.now }
    requires is_core { core < length run.now.entries }
    ensures some { IfSome result
        (λ read. text.now ≡ item_text model.now (Runs read.0.task read.0.from read.0.to)
        ++ read.1.now) }
    ensures within { IfSome result
        (λ read. IsStretchWithin model.now run.now.table.ticks read.0.task read.0.from read.0.to) }
    ensures fits { IfSome result
        (λ read. FitsEntries model.now core (core_entries run.now core) read.0.task read.0.from) }
    ensures none { IfNone result
        ((task from to : ℕ) (rest : List ℕ)
        → IsStretchWithin model.now run.now.table.ticks task from to
        → FitsEntries model.now core (core_entries run.now core) task from
        → text.now ≢ item_text model.now (Runs task from to) ++ rest) }
{
    let (line, rest) = run_after(model, text, run.table().ticks, guesses)?;
    if line.from < line.to && fits_core(model, run, core, line) {
        Some((line, rest))
    } else {
        None
    }
}

/// Appends a stretch to the entries of a core, and idle ticks in front of it where it begins later
/// than they end.
fn append(run: &mut RunData, core: u32, line: RunLine) -> Result<(), NoMemory>
    requires is_core { core < length run.old.entries }
    requires after { length (core_entries run.old core) ≤ line.from }
    requires some { line.from < line.to }
    requires in_time { line.to ≤ run.old.table.ticks }
    ensures { OnOk result
        (IsRunWith run.old run.new core (entries_appended (core_entries run.old core) line.task line.from line.to)) }
{
    let idle = line.from - run.filled(core);
    run.push(core, None, idle)?;
    run.push(core, Some(line.task), line.to - line.from)
}

/// Reads the entries of a core from all run lines of it that follow, and idle ticks up to the end
/// of the run, and returns the rest of the text.
fn entries_after<'a>(
    model: &ValidModel,
    run: &mut RunData,
    core: u32,
    text: &'a [u8],
    guesses: &mut Guesses,
) -> Result<&'a [u8], NoMemory>
    requires named { AreTasksNamed model.now }
    requires valid { IsValid model.now }
    requires is_core { core < length run.old.entries }
    requires of_model { core < length model.now.cores }
    requires empty { core_entries run.old core ≡ [] }
    ensures run { OnOk result (IsRunWith run.old run.new core (core_entries run.new core)) }
    ensures entries { IfOk result
        (λ rest. AreAllEntriesOf model.now run.old.table.ticks core text.now (core_entries run.new core) rest.now) }
{
    let mut left = text;
    while let Some((line, rest)) = stretch_after(model, run, core, left, guesses) {
        append(run, core, line)?;
        left = rest;
    }
    let idle = run.table().ticks - run.filled(core);
    run.push(core, None, idle)?;
    Ok(left)
}

/// Reads the entries of all cores, core by core, from all run lines that follow in this order, and
/// returns the rest of the text.
pub(crate) fn runs_after<'a>(
    model: &ValidModel,
    run: &mut RunData,
    text: &'a [u8],
) -> Result<&'a [u8], NoMemory>
    requires named { AreTasksNamed model.now }
    requires cores { length run.old.entries ≡ length model.now.cores }
    requires empty { (core : ℕ) → core_entries run.old core ≡ [] }
    ensures table { OnOk result (run.new.table ≡ run.old.table) }
    ensures cores { OnOk result (length run.new.entries ≡ length model.now.cores) }
    ensures entries { IfOk result
        (λ rest. AreCores model.now run.old.table.ticks (length model.now.cores) text.now run.new rest.now) }
{
    let mut guesses = Guesses::new();
    let mut left = text;
    for core in 0..model.cores() {
        left = entries_after(model, run, core, left, &mut guesses)?;
    }
    Ok(left)
}
