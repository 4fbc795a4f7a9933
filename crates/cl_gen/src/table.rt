//! Drawing the job table of a model.
ghost use Rattle.std.specs.Prelude.{◌≡◌, ◌<◌, ◌≤◌, Err, IfOk, IfErr};
ghost use Rattle.cl_runs.specs.{SystemOf.system_of, Table.IsLawful};
ghost use Rattle.cl_gen.specs.{Count.execution_count, Drawn.drawn};

use crate::counting::execution_count;
use crate::drawing::draw_tasks;
use crate::draws::Draws;
use crate::limits::{MOST_EXECUTIONS, MOST_RUN_TICKS};
use cl_model::ValidModel;
use cl_runs::JobTable;
use cl_time::NoMemory;
use std::alloc::Global;

/// Why no job table is drawn.
#[derive(Clone, Copy, PartialEq, Eq)]
pub enum DrawFault {
    /// `count` executions of runnables are counted, more than [`MOST_EXECUTIONS`].
    SimLimit { count: u64 },
    /// Memory ran out.
    NoMemory,
}

impl From<NoMemory> for DrawFault {
    ghost use Rattle.std.specs.Prelude.{◌≡◌};
    ghost use Rattle.cl_gen.specs.declared.table.DrawFault.TheVariants.{NoMemory};

    ghost from_gives = { λ _ fault. fault ≡ NoMemory };

    fn from(_: NoMemory) -> DrawFault {
        DrawFault::NoMemory
    }
}

/// Draws the job table, once it is known that it isn't too large.
fn drawn_table(
    alloc: Global,
    model: &ValidModel,
    ticks: u64,
    seed: u64,
) -> Result<JobTable, NoMemory>
    requires { ticks ≤ MOST_RUN_TICKS }
    ensures { IfOk result (λ table. table ≡ drawn model.now ticks seed) }
{
    let mut draws = Draws::of_seed(seed);
    let jobs = draw_tasks(alloc, &mut draws, model, ticks)?;
    Ok(JobTable { ticks, jobs })
}

/// Draws the job table of `ticks` ticks for a model with the words of a seed. It is lawful:
/// arrivals, releases and execution times are as the model allows. Times are in ticks.
///
/// `SimLimit` comes exactly where more executions of runnables are counted than
/// [`MOST_EXECUTIONS`], with the count and before anything is drawn. Each gap between arrivals is
/// counted as the least, so no table has more executions than are counted. `NoMemory` comes where
/// there is no memory for the table. Either leaves nothing.
///
/// The words are those of the generator PCG XSL RR 128/64, in order; the definitions of this crate
/// say which word draws what.
pub fn draw_table(
    alloc: Global,
    model: &ValidModel,
    ticks: u64,
    seed: u64,
) -> Result<JobTable, DrawFault>
    requires { ticks ≤ MOST_RUN_TICKS }
    ensures drawn { IfOk result (λ table. table ≡ drawn model.now ticks seed) }
    ensures lawful { IfOk result (IsLawful (system_of model.now)) }
    ensures too_many { MOST_EXECUTIONS < execution_count model.now ticks
        → result ≡ Err (DrawFault.SimLimit (execution_count model.now ticks)) }
    ensures few { execution_count model.now ticks ≤ MOST_EXECUTIONS
        → IfErr result (λ fault. fault ≡ DrawFault.NoMemory) }
{
    let count = execution_count(model, ticks);
    if count > MOST_EXECUTIONS {
        return Err(DrawFault::SimLimit { count });
    }
    Ok(drawn_table(alloc, model, ticks, seed)?)
}
