//! Questions on drawn job tables. Times are in ticks.
use crate::words::{no_such_number, number_at, put_number, put_numbers, said};
use cl_gen::{DrawFault, MOST_RUN_TICKS, draw_table};
use cl_io::Words;
use cl_model::ValidModel;
use cl_runs::{Job, JobTable};
use cl_text::Text;
use cl_time::NoMemory;
use std::alloc::Global;

/// Answers `table MODEL TICKS SEED`: the job table of so many ticks that the seed draws: a line
/// with its ticks, and a line for the jobs of each task.
pub(crate) fn table_lines(
    alloc: Global,
    words: &Words,
    model: &ValidModel,
) -> Result<Text, NoMemory> {
    match drawn(alloc, words, model) {
        Ok(Some(table)) => spelled(alloc, &table),
        Ok(None) => no_such_number(alloc),
        Err(fault) => undrawn(alloc, fault),
    }
}

/// Answers `draw MODEL TICKS SEED`: that such a table is drawn, or why there is none.
pub(crate) fn draw_line(
    alloc: Global,
    words: &Words,
    model: &ValidModel,
) -> Result<Text, NoMemory> {
    match drawn(alloc, words, model) {
        Ok(Some(_)) => said(alloc, "drawn"),
        Ok(None) => no_such_number(alloc),
        Err(fault) => undrawn(alloc, fault),
    }
}

/// Draws the table of the ticks and the seed that the words spell. `None` where a word spells no
/// number, or where there are more than `MOST_RUN_TICKS` ticks.
fn drawn(alloc: Global, words: &Words, model: &ValidModel) -> Result<Option<JobTable>, DrawFault> {
    match (number_at(words, 3), number_at(words, 4)) {
        (Some(ticks), Some(seed)) if ticks <= MOST_RUN_TICKS => {
            Ok(Some(draw_table(alloc, model, ticks, seed)?))
        }
        _ => Ok(None),
    }
}

/// Answers why no table is drawn.
fn undrawn(alloc: Global, fault: DrawFault) -> Result<Text, NoMemory> {
    match fault {
        DrawFault::SimLimit { count } => {
            said(
                alloc,
                format!(in alloc; "{count} executions are too many")?.as_str(),
            )
        }
        DrawFault::NoMemory => Err(NoMemory),
    }
}

fn spelled(alloc: Global, table: &JobTable) -> Result<Text, NoMemory> {
    let mut text = Text::new(alloc);
    put_number(&mut text, b"ticks ", table.ticks)?;
    for jobs in table.jobs.as_slice() {
        put_jobs(&mut text, jobs.as_slice())?;
    }
    text.put(b"\n")?;
    Ok(text)
}

/// Puts the jobs of a task, on a line of their own.
fn put_jobs(text: &mut Text, jobs: &[Job]) -> Result<(), NoMemory> {
    text.put(b"\njobs")?;
    for job in jobs {
        put_job(text, job)?;
    }
    Ok(())
}

/// Puts the arrival, the release and the times of a job.
fn put_job(text: &mut Text, job: &Job) -> Result<(), NoMemory> {
    put_number(text, b" ", job.arrival)?;
    put_number(text, b" ", job.release)?;
    put_numbers(text, job.times.as_slice())?;
    text.put(b";")
}
