//! Questions on the exact lengths of chains. Times are in ticks.
ghost use Rattle.std.specs.Prelude.{◌≡◌, ◌<◌, length, true};
ghost use Rattle.cl_exact.specs.TimedPeriodic.{is_timed_periodic_chain};

use crate::words::{chain_at, no_such_number, put_number, put_numbers, said};
use cl_exact::{ExactLengths, HyperLimit, Witness, exact, is_timed_periodic};
use cl_io::Words;
use cl_model::ValidModel;
use cl_text::Text;
use cl_time::{NoMemory, Steps};
use std::alloc::Global;
use std::sync::ledger::Ledger;

/// Answers `exact MODEL CHAIN`: the exact reaction, the exact age and the exact reduced age of a
/// chain, a line each with its witness, or why it has none.
pub(crate) fn exact_lines<L: Ledger>(
    alloc: Global,
    words: &Words,
    model: &ValidModel,
    steps: &mut Steps<L>,
) -> Result<Text, NoMemory> {
    match chain_at(words, 3, model) {
        Some(chain) => of_chain(alloc, model, chain, steps),
        None => no_such_number(alloc),
    }
}

fn of_chain<L: Ledger>(
    alloc: Global,
    model: &ValidModel,
    chain: u32,
    steps: &mut Steps<L>,
) -> Result<Text, NoMemory>
    requires { chain < length model.now.chains }
{
    if !is_timed_periodic(model, chain) {
        return said(alloc, "not timed and periodic");
    }
    match exact(model, chain, steps) {
        Ok(lengths) => spelled_by_copy(alloc, &lengths),
        Err(HyperLimit { limit }) => said(alloc, format!(in alloc; "past {limit}")?.as_str()),
    }
}

/// Writes the exact lengths from a copy of them.
fn spelled_by_copy(alloc: Global, lengths: &ExactLengths) -> Result<Text, NoMemory> {
    let copy = lengths.copy();
    spelled(alloc, &copy)
}

fn spelled(alloc: Global, lengths: &ExactLengths) -> Result<Text, NoMemory> {
    let mut text = Text::new(alloc);
    put_witness(&mut text, lengths.reaction())?;
    put_witness(&mut text, lengths.age())?;
    put_witness(&mut text, lengths.reduced())?;
    Ok(text)
}

/// Puts the length of a witness, from when to when it lasts, and its jobs, on a line.
fn put_witness(text: &mut Text, witness: &Witness) -> Result<(), NoMemory> {
    put_number(text, b"", witness.length)?;
    put_number(text, b" from ", witness.from)?;
    put_number(text, b" to ", witness.to)?;
    text.put(b" jobs")?;
    put_numbers(text, witness.jobs.as_slice())?;
    text.put(b"\n")
}
