//! The exact lengths of chains. Times are in ticks.
ghost use Rattle.std.specs.Prelude.{◌≡◌, ◌+◌, ◌<◌, ◌≤◌, length, IfOk};
ghost use Rattle.cl_exact.specs.TimedPeriodic.{is_timed_periodic_chain};
ghost use Rattle.cl_analyse.specs.ChainAnswers.{chain_answers_of, OnLate, IsTimelyAnswer, IsExactAnswer, AreExactAnswers};

use crate::findings::{ChainAnswer, ExactAnswer};
use cl_exact::{HyperLimit, exact, is_timed_periodic};
use cl_model::{List, ValidModel};
use cl_time::{NoMemory, Steps};
use std::alloc::Global;
use std::sync::ledger::Ledger;

/// Finds the exact lengths of all chains, from the answers about the bounds of all chains.
pub(crate) fn answer_exacts<L: Ledger>(
    alloc: Global,
    model: &ValidModel,
    chains: &List<ChainAnswer>,
    steps: &mut Steps<L>,
) -> Result<List<ExactAnswer>, NoMemory>
    requires { chains.now ≡ chain_answers_of model.now }
    ensures answers { IfOk result (AreExactAnswers model.now) }
    ensures steps { steps.new ≤ steps.old + length model.now.chains }
{
    let mut answers = List::new(alloc);
    for chain in 0..model.chains() {
        let bounds = &chains.as_slice()[chain as usize];
        answers.push(answer_exact(model, chain, bounds, steps))?;
    }
    Ok(answers)
}

/// Finds the exact lengths of a chain, given by its number, or why there are none, from what was
/// found of its bounds. Computing them counts a step, also where the hyperperiod turns out to
/// exceed the limit. A chain that is late, or that has a task that isn't both timed and periodic,
/// counts none. It takes no memory.
pub fn answer_exact<L: Ledger>(
    model: &ValidModel,
    chain: u32,
    bounds: &ChainAnswer,
    steps: &mut Steps<L>,
) -> ExactAnswer
    requires { chain < length model.now.chains }
    ensures answer { IsExactAnswer model.now chain bounds.now result }
    ensures steps { steps.new ≤ steps.old + 1 }
    ensures late { OnLate bounds.now (steps.new ≡ steps.old) }
{
    match bounds {
        ChainAnswer::Late { .. } => ExactAnswer::ChainLate,
        ChainAnswer::Bounds(_) => answer_timely(model, chain, steps),
    }
}

/// Finds the exact lengths of a chain none of whose tasks is late.
fn answer_timely<L: Ledger>(model: &ValidModel, chain: u32, steps: &mut Steps<L>) -> ExactAnswer
    requires { chain < length model.now.chains }
    ensures answer { IsTimelyAnswer model.now chain (is_timed_periodic_chain model.now chain) result }
    ensures steps { steps.new ≤ steps.old + 1 }
{
    if !is_timed_periodic(model, chain) {
        return ExactAnswer::NotTimed;
    }
    match exact(model, chain, steps) {
        Ok(lengths) => ExactAnswer::Exact(lengths),
        Err(HyperLimit { limit }) => ExactAnswer::Past { limit },
    }
}
