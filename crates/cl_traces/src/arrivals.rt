//! What is said of a job that arrives when it may not. Times are in ticks.
ghost use Rattle.std.specs.Prelude.{◌≡◌, ◌++◌, codes, OnOk};
ghost use Rattle.cl_runs.specs.Pattern.{IsPattern, first_least, first_greatest};
ghost use Rattle.cl_traces.specs.SaidOfRules.{arrives_well, span_words, arrivals_words, untimely_text, arrival_text};

use crate::due::Due;
use crate::pieces::put_span;
use cl_model::StimulusKind;
use cl_runs::Job;
use cl_text::Text;
use cl_time::NoMemory;

/// Whether a job arrives when it is due, within the ticks of the run.
fn arrives_well(ticks: u64, due: Due, job: &Job) -> bool
    ensures { result ≡ arrives_well ticks due.low due.high job.now }
{
    let arrival = u128::from(job.arrival);
    due.low <= arrival && arrival <= due.high && job.arrival < ticks
}

/// Appends that no further job of the task of this name may arrive.
fn put_none_left(text: &mut Text, name: &[u8]) -> Result<(), NoMemory>
    ensures { OnOk result (text.new ≡ text.old ++ (codes "no further job of " ++ name.now)) }
{
    text.put(b"no further job of ")?;
    text.put(name)?;
    Ok(())
}

/// Appends that a job may arrive at these ticks.
fn put_arrival_span(text: &mut Text, low: u128, high: u128) -> Result<(), NoMemory>
    ensures { OnOk result (text.new ≡ text.old ++ (codes "arrival " ++ span_words low high)) }
{
    text.put(b"arrival ")?;
    put_span(text, low, high)?;
    Ok(())
}

/// Appends when a job of the task of this name may arrive within the ticks of the run, or that none
/// may.
fn put_arrivals(text: &mut Text, name: &[u8], ticks: u64, due: Due) -> Result<(), NoMemory>
    ensures { OnOk result (text.new ≡ text.old ++ arrivals_words name.now ticks due.low due.high) }
{
    let ticks = u128::from(ticks);
    if ticks <= due.low {
        put_none_left(text, name)
    } else {
        put_arrival_span(text, due.low, due.high.min(ticks - 1))
    }
}

/// Appends what is said of a job that arrives otherwise than it is due.
fn put_untimely(
    text: &mut Text,
    name: &[u8],
    ticks: u64,
    due: Due,
    job: &Job,
) -> Result<(), NoMemory>
    ensures { OnOk result (text.new ≡ text.old ++ untimely_text name.now ticks due.low due.high job.now) }
{
    text.put(b"found arrival ")?;
    text.put_number(job.arrival)?;
    text.put(b"\nwanted ")?;
    put_arrivals(text, name, ticks, due)?;
    text.put(b"\n")?;
    Ok(())
}

/// Appends what is said of the first of the jobs of a task that arrives when it may not, and nothing
/// where there is none.
pub(crate) fn put_arrival(
    text: &mut Text,
    name: &[u8],
    kind: StimulusKind,
    ticks: u64,
    jobs: &[Job],
) -> Result<(), NoMemory>
    requires { IsPattern kind }
    ensures { OnOk result
        (text.new ≡ text.old ++ arrival_text name.now kind ticks 0 (first_least kind) (first_greatest kind) jobs.now) }
{
    let mut due = Due::first(kind);
    for (number, job) in jobs.iter().enumerate() {
        if !arrives_well(ticks, due, job) {
            return put_untimely(text, name, ticks, due, job);
        }
        due = Due::after(kind, number as u64, job.arrival);
    }
    Ok(())
}
