//! What is said of a job that is released when it may not be. Times are in ticks.
ghost use Rattle.std.specs.Prelude.{◌≡◌, ◌++◌, OnOk};
ghost use Rattle.cl_traces.specs.SaidOfRules.{is_released_well, ill_released_text, release_text};

use crate::pieces::put_span;
use cl_model::StimulusKind;
use cl_runs::Job;
use cl_text::Text;
use cl_time::NoMemory;

/// Whether a job is released at its arrival, or at most the jitter later.
fn is_released_well(kind: StimulusKind, job: &Job) -> bool
    ensures { result ≡ is_released_well kind job.now }
{
    job.arrival <= job.release
        && u128::from(job.release) <= u128::from(job.arrival) + u128::from(kind.greatest_jitter())
}

/// Appends what is said of a job that isn't.
fn put_ill_released(text: &mut Text, kind: StimulusKind, job: &Job) -> Result<(), NoMemory>
    ensures { OnOk result (text.new ≡ text.old ++ ill_released_text kind job.now) }
{
    let arrival = u128::from(job.arrival);
    text.put(b"found release ")?;
    text.put_number(job.release)?;
    text.put(b"\nwanted release ")?;
    put_span(text, arrival, arrival + u128::from(kind.greatest_jitter()))?;
    text.put(b"\n")?;
    Ok(())
}

/// Appends what is said of the first of the jobs that is released when it may not be, and nothing
/// where there is none.
pub(crate) fn put_release(text: &mut Text, kind: StimulusKind, jobs: &[Job]) -> Result<(), NoMemory>
    ensures { OnOk result (text.new ≡ text.old ++ release_text kind jobs.now) }
{
    for job in jobs {
        if !is_released_well(kind, job) {
            return put_ill_released(text, kind, job);
        }
    }
    Ok(())
}
