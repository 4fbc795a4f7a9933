//! What is said of a job with a time that isn't in the range of its runnable. Times are in ticks.
ghost use Rattle.std.specs.Prelude.{◌≡◌, ◌++◌, option_map, OnOk};
ghost use Rattle.cl_traces.specs.SaidOfRules.{is_misfit, first_misfit, misfit_text, time_text};

use cl_model::RunnableDef;
use cl_runs::Job;
use cl_text::Text;
use cl_time::NoMemory;

/// Whether a time isn't in the range of its runnable.
fn is_misfit(runnable: &RunnableDef, time: u64) -> bool
    ensures { result ≡ is_misfit (runnable.now, time) }
{
    !(runnable.least <= time && time <= runnable.greatest)
}

/// Finds the first runnable whose time isn't in its range, with that time.
fn first_misfit<'a>(
    runnables: &'a [RunnableDef],
    times: &'a [u64],
) -> Option<(&'a RunnableDef, &'a u64)>
    ensures { option_map (λ pair. (pair.0.now, pair.1.now)) result ≡ first_misfit runnables.now times.now }
{
    runnables
        .iter()
        .zip(times.iter())
        .find(|(runnable, time)| is_misfit(runnable, **time))
}

/// Appends what is said of a runnable whose time isn't in its range.
fn put_misfit(text: &mut Text, runnable: &RunnableDef, time: u64) -> Result<(), NoMemory>
    ensures { OnOk result (text.new ≡ text.old ++ misfit_text (runnable.now, time)) }
{
    text.put(b"found time ")?;
    text.put_number(time)?;
    text.put(b"\nwanted time ")?;
    text.put_number(runnable.least)?;
    text.put(b" to ")?;
    text.put_number(runnable.greatest)?;
    text.put(b" of ")?;
    text.put(runnable.name.as_slice())?;
    text.put(b"\n")?;
    Ok(())
}

/// Appends what is said of the first of the jobs that has a time out of its range, and nothing where
/// there is none.
pub(crate) fn put_time(
    text: &mut Text,
    runnables: &[RunnableDef],
    jobs: &[Job],
) -> Result<(), NoMemory>
    ensures { OnOk result (text.new ≡ text.old ++ time_text runnables.now jobs.now) }
{
    for job in jobs {
        if let Some((runnable, time)) = first_misfit(runnables, job.times.as_slice()) {
            return put_misfit(text, runnable, *time);
        }
    }
    Ok(())
}
