ghost use Rattle.std.specs.Prelude.{◌≡◌, IfOk};
ghost use Rattle.cl_engine.specs.Content.{Model};
ghost use Rattle.cl_runs.specs.{SystemOf.system_of, Table.IsLawful};
ghost use Rattle.cl_top.specs.{Command.AsksForFew, Commands.{IsOutcomeOf, Simulate.simulation_refused}, Inner.Traced.IsTraceOfTable};

use crate::Command;
use cl_engine::{Outcome, status};
use cl_gen::{DrawFault, MOST_EXECUTIONS, draw_table};
use cl_model::ValidModel;
use cl_runs::JobTable;
use cl_text::Text;
use cl_time::NoMemory;
use std::alloc::Global;

/// Finds the outcome of `simulate` for a valid model: the trace of the legal run of the drawn
/// table, or the refusal of a table that is too large.
#[tactic(auto, unfolding(crate::specs::Commands::command_meaning, crate::specs::Command::AsksForFew))]
pub(super) fn simulated(
    alloc: Global,
    model: &ValidModel,
    ticks: u64,
    seed: u64,
) -> Result<Outcome, NoMemory>
    requires { AsksForFew (Command.Simulate ticks seed) }
    ensures { IfOk result (IsOutcomeOf (Command.Simulate ticks seed) (Model model.now)) }
{
    match draw_table(alloc, model, ticks, seed) {
        Ok(table) => traced(alloc, model, table),
        Err(DrawFault::SimLimit { count }) => refused(alloc, count),
        Err(DrawFault::NoMemory) => Err(NoMemory),
    }
}

/// Simulates the legal run of a table and writes its trace.
pub(super) fn traced(
    alloc: Global,
    model: &ValidModel,
    table: JobTable,
) -> Result<Outcome, NoMemory>
    requires { IsLawful (system_of model.now) table }
    ensures { IfOk result (IsTraceOfTable model.now table) }
{
    let run = cl_sched::simulate(alloc, model, table)?;
    let text = cl_trace::write_trace(alloc, model, &run)?;
    Ok(Outcome::done(text))
}

/// Makes the outcome of a run for which too many executions of runnables are counted.
pub(super) fn refused(alloc: Global, count: u64) -> Result<Outcome, NoMemory>
    ensures { IfOk result (λ outcome. outcome ≡ simulation_refused count) }
{
    let mut text = Text::new(alloc);
    text.put(b"simulation refused ")?;
    text.put_number(count)?;
    text.put(b" of ")?;
    text.put_number(MOST_EXECUTIONS)?;
    text.put(b"\n")?;
    Ok(Outcome {
        status: status::SIMULATION_REFUSED,
        text,
    })
}
