//! The exact answers for chains: the earlier ones under the numbers that the chains have now, with
//! new ones in their places. Times are in ticks.
ghost use Rattle.std.specs.Prelude.{◌≡◌, ◌<◌, length, unwrap_or, IfOk, All};
ghost use Rattle.cl_analyse.specs.{ChainAnswers.exact_answer_at, Verdicts.verdicts_of};
ghost use Rattle.cl_incr.specs.Inner.News.{chain_before, put_all, AreMoved};

use cl_analyse::{ChainAnswer, ExactAnswer, Verdict, judge};
use cl_model::{List, ValidModel};
use cl_time::NoMemory;
use std::alloc::Global;

/// A new exact answer for a chain.
#[derive(Drop)]
pub(crate) struct FoundExact {
    pub(crate) chain: u32,
    pub(crate) exact: ExactAnswer,
}

/// The number under which a chain of the new model is looked for in the old one: its own where
/// there are as many chains as before, and else that of the chain of its name.
pub(crate) fn chain_before(old: &ValidModel, new: &ValidModel, chain: u32) -> u32
    requires { chain < length new.now.chains }
    ensures { result ≡ chain_before old.now new.now chain }
{
    if old.chains() == new.chains() {
        return chain;
    }
    old.chain_named(&new.chain(chain).name).unwrap_or(chain)
}

/// Copies the exact answer of a chain, `ChainLate` where there is no such chain.
fn copy_at(exacts: &List<ExactAnswer>, chain: u32) -> ExactAnswer
    ensures { result ≡ exact_answer_at exacts.now chain }
{
    match exacts.at(chain as usize) {
        Some(exact) => exact.copy(),
        None => ExactAnswer::ChainLate,
    }
}

/// Copies the exact answers to the numbers that the chains have now.
fn copy_moved(
    alloc: Global,
    old: &ValidModel,
    exacts: &List<ExactAnswer>,
    new: &ValidModel,
) -> Result<List<ExactAnswer>, NoMemory>
    ensures { IfOk result (AreMoved old.now new.now exacts.now) }
{
    let mut moved = List::with_room(alloc, new.chains() as usize)?;
    for chain in 0..new.chains() {
        moved.push(copy_at(exacts, chain_before(old, new, chain)))?;
    }
    Ok(moved)
}

/// Copies the exact answers to the numbers that the chains have now, where these may differ from
/// those before.
pub(crate) fn moved_exacts(
    alloc: Global,
    old: &ValidModel,
    exacts: &List<ExactAnswer>,
    new: &ValidModel,
) -> Result<Option<List<ExactAnswer>>, NoMemory>
    requires { length exacts.now ≡ length old.now.chains }
    ensures { IfOk result (λ moved. AreMoved old.now new.now exacts.now (unwrap_or moved exacts.now)) }
{
    if old.chains() == new.chains() {
        Ok(None)
    } else {
        Ok(Some(copy_moved(alloc, old, exacts, new)?))
    }
}

/// Replaces the exact answers, if there are others.
pub(crate) fn put_moved(exacts: &mut List<ExactAnswer>, moved: Option<List<ExactAnswer>>)
    ensures { exacts.new ≡ unwrap_or moved exacts.old }
{
    match moved {
        Some(moved) => *exacts = moved,
        None => {}
    }
}

/// Puts exact answers in their places. Takes no memory.
pub(crate) fn put_exacts(exacts: &mut List<ExactAnswer>, found: &[FoundExact])
    requires { All (λ (one : FoundExact). one.chain < length exacts.old) found.now }
    ensures { exacts.new ≡ put_all found.now exacts.old }
{
    for one in found {
        *exacts.item_mut(one.chain as usize) = one.exact.copy();
    }
}

/// Makes a verdict for each requirement, which is judged later.
pub(crate) fn blank_verdicts(alloc: Global, count: usize) -> Result<List<Verdict>, NoMemory>
    ensures { IfOk result (λ verdicts. length verdicts ≡ count) }
{
    let mut verdicts = List::with_room(alloc, count)?;
    for _ in 0..count {
        verdicts.push(Verdict::Unshown { value: None })?;
    }
    Ok(verdicts)
}

/// Judges all requirements again. Takes no memory.
pub(crate) fn judge_anew(
    model: &ValidModel,
    chains: &List<ChainAnswer>,
    exacts: &List<ExactAnswer>,
    verdicts: &mut List<Verdict>,
)
    requires { length verdicts.old ≡ length model.now.requirements }
    ensures { verdicts.new ≡ verdicts_of model.now chains.now exacts.now }
{
    let all = model.plain().requirements.as_slice();
    for place in 0..all.len() {
        *verdicts.item_mut(place) = judge(model, chains, exacts, &all[place]);
    }
}
