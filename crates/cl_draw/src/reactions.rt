//! The longest reactions of a run. Times are in ticks.
ghost use Rattle.std.specs.Prelude.{◌<◌, length, IfOk};
ghost use Rattle.cl_model.specs.Groups.{groups_at};
ghost use Rattle.cl_runs.specs.{Legal.IsLegal, RunChains.run_moments, Chains.IsForwardChain, SystemOf.system_of};
ghost use Rattle.cl_chain.specs.JobChains.{job_chain_of};
ghost use Rattle.cl_draw.specs.Reactions.{IsShown, IsDrawnReaction};

use crate::stops::{Reaction, stop_of};
use cl_chain::{JobChain, measure};
use cl_model::{List, ValidModel};
use cl_run_data::RunData;
use cl_time::NoMemory;
use std::alloc::Global;

/// Builds the longest reaction of a chain from the complete forward chain that was measured.
fn reaction_of(
    alloc: Global,
    model: &ValidModel,
    run: &RunData,
    chain: u32,
    longest: &JobChain,
) -> Result<Reaction, NoMemory>
    requires legal { IsLegal (system_of model.now) run.now }
    requires is_chain { chain < length model.now.chains }
    requires complete { IsForwardChain (run_moments (system_of model.now) run.now) (groups_at model.now chain) (job_chain_of longest.now) }
    ensures { IfOk result
        (IsShown (run_moments (system_of model.now) run.now) (groups_at model.now chain) (job_chain_of longest.now)) }
{
    let jobs = longest.jobs.as_slice();
    let mut stops = List::new(alloc);
    for place in 0..model.group_count(chain) {
        let group = model.group(chain, place);
        stops.push(stop_of(alloc, model, run, group, jobs[place as usize])?)?;
    }
    Ok(Reaction {
        from: longest.from,
        to: longest.to,
        stops,
    })
}

/// Finds the longest reaction of a chain in a run, if the run has a complete one.
pub(crate) fn longest_reaction(
    alloc: Global,
    model: &ValidModel,
    run: &RunData,
    chain: u32,
) -> Result<Option<Reaction>, NoMemory>
    requires legal { IsLegal (system_of model.now) run.now }
    requires is_chain { chain < length model.now.chains }
    ensures { IfOk result (IsDrawnReaction model.now run.now chain) }
{
    // So that it is known that the model is valid.
    let _valid = model.plain();
    let measured = measure(alloc, model, run, chain)?;
    match &measured.reaction {
        Some(longest) => Ok(Some(reaction_of(alloc, model, run, chain, longest)?)),
        None => Ok(None),
    }
}
