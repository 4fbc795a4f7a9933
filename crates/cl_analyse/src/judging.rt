//! The verdicts on requirements. Values are in ticks.
ghost use Rattle.std.specs.Prelude.{◌≡◌, ℕ, Option, map, IfOk};
ghost use Rattle.cl_analyse.specs.{ChainAnswers.{chain_answer_at, exact_answer_at}, Verdicts.{required_bound, required_exact, verdict_on, verdict_of, verdicts_of}};

use crate::findings::{ChainAnswer, ExactAnswer, Verdict};
use cl_model::{List, RequirementDef, RequirementKind, ValidModel};
use cl_time::NoMemory;
use std::alloc::Global;

/// Judges all requirements of the model, in file order, from what was found of all chains.
/// `NoMemory` comes where there is no memory for the verdicts; it leaves nothing.
pub fn judge_all(
    alloc: Global,
    model: &ValidModel,
    chains: &List<ChainAnswer>,
    exacts: &List<ExactAnswer>,
) -> Result<List<Verdict>, NoMemory>
    ensures { IfOk result (λ verdicts. verdicts ≡ verdicts_of model.now chains.now exacts.now) }
{
    let mut verdicts = List::new(alloc);
    for requirement in model.plain().requirements.as_slice() {
        verdicts.push(judge(model, chains, exacts, requirement))?;
    }
    Ok(verdicts)
}

/// Judges a requirement, from what was found of all chains: by the exact length of its chain and
/// kind or, where there is none, by the bound. Of a delay no exact length is found. A requirement
/// that names no chain of the model is judged by chain 0. It takes no memory.
#[tactic(auto, unfolding(crate::specs::Verdicts::verdict_of))]
pub fn judge(
    model: &ValidModel,
    chains: &List<ChainAnswer>,
    exacts: &List<ExactAnswer>,
    requirement: &RequirementDef,
) -> Verdict
    ensures { result ≡ verdict_of model.now chains.now exacts.now requirement.now }
{
    let chain = model.chain_named(&requirement.chain).unwrap_or(0);
    verdict_on(
        requirement.most,
        required_exact(exacts, chain, requirement.kind),
        required_bound(chains, chain, requirement.kind),
    )
}

/// Returns the exact value that was found of what a requirement of this kind limits on a chain.
#[tactic(auto, using(std::proofs::lemmas::Option::gets))]
fn required_exact(exacts: &List<ExactAnswer>, chain: u32, kind: RequirementKind) -> Option<u64>
    ensures { result ≡ required_exact kind (exact_answer_at exacts.now chain) }
{
    match exacts.at(chain as usize) {
        Some(answer) => answer.required(kind),
        None => None,
    }
}

/// Returns the bound that was found on what a requirement of this kind limits on a chain, given by
/// its number, in ticks, by the answers for all chains. It is `None` exactly where a task of the
/// chain is late, or where there is no chain of that number.
#[tactic(auto, using(std::proofs::lemmas::Option::gets))]
pub fn required_bound(chains: &List<ChainAnswer>, chain: u32, kind: RequirementKind) -> Option<u64>
    ensures { result ≡ required_bound kind (chain_answer_at chains.now chain) }
{
    match chains.at(chain as usize) {
        Some(answer) => answer.required(kind),
        None => None,
    }
}

/// Judges a requirement of at most `most` ticks, by the exact value if there is one, and else by
/// the bound. Without both nothing is shown.
pub fn verdict_on(most: u64, exact: Option<u64>, bound: Option<u64>) -> Verdict
    ensures { result ≡ verdict_on most exact bound }
{
    match (exact, bound) {
        (Some(value), _) | (None, Some(value)) if value <= most => Verdict::Met { value },
        (Some(value), _) => Verdict::Broken { value },
        (None, value) => Verdict::Unshown { value },
    }
}
