//! Questions on the best cuts, on the best orders of the priorities, and on how far execution times
//! may grow.
ghost use Rattle.std.specs.Prelude.{◌<◌, length};
ghost use Rattle.cl_analyse.specs.Findings.{AreFindings};

use crate::words::{chain_at, no_such_number, put_number, put_numbers, said};
use cl_analyse::{Findings, analyse};
use cl_cut::{CutAnswer, best_cut, best_cuts};
use cl_io::Words;
use cl_model::ValidModel;
use cl_text::Text;
use cl_time::{NoMemory, Steps};
use cl_tune::{OrderAnswer, headroom, order};
use std::alloc::Global;
use std::sync::ledger::Ledger;

/// Answers `cut MODEL CHAIN`: the best cut of a chain.
pub(crate) fn cut<L: Ledger>(
    alloc: Global,
    words: &Words,
    model: &ValidModel,
    steps: &mut Steps<L>,
) -> Result<Text, NoMemory> {
    match chain_at(words, 3, model) {
        Some(chain) => cut_of(alloc, model, chain, steps),
        None => no_such_number(alloc),
    }
}

fn cut_of<L: Ledger>(
    alloc: Global,
    model: &ValidModel,
    chain: u32,
    steps: &mut Steps<L>,
) -> Result<Text, NoMemory>
    requires { chain < length model.now.chains }
{
    match analyse(alloc, model, steps) {
        Ok(findings) => cut_by(alloc, model, &findings, chain, steps),
        Err(no_memory) => Err(no_memory),
    }
}

fn cut_by<L: Ledger>(
    alloc: Global,
    model: &ValidModel,
    findings: &Findings,
    chain: u32,
    steps: &mut Steps<L>,
) -> Result<Text, NoMemory>
    requires is_chain { chain < length model.now.chains }
    requires findings { AreFindings model.now findings.now }
{
    let mut text = Text::new(alloc);
    put_cut(&mut text, &best_cut(alloc, model, findings, chain, steps)?)?;
    Ok(text)
}

/// Answers `cuts MODEL`: the best cuts of all chains, in file order, a line each.
pub(crate) fn cuts<L: Ledger>(
    alloc: Global,
    model: &ValidModel,
    steps: &mut Steps<L>,
) -> Result<Text, NoMemory> {
    match analyse(alloc, model, steps) {
        Ok(findings) => cuts_by(alloc, model, &findings, steps),
        Err(no_memory) => Err(no_memory),
    }
}

fn cuts_by<L: Ledger>(
    alloc: Global,
    model: &ValidModel,
    findings: &Findings,
    steps: &mut Steps<L>,
) -> Result<Text, NoMemory>
    requires { AreFindings model.now findings.now }
{
    spelled(alloc, best_cuts(alloc, model, findings, steps)?.as_slice())
}

fn spelled(alloc: Global, cuts: &[CutAnswer]) -> Result<Text, NoMemory> {
    let mut text = Text::new(alloc);
    for cut in cuts {
        put_cut(&mut text, cut)?;
    }
    Ok(text)
}

/// Puts the cost of a cut and the first group of each piece, or the task that is late, on a line.
fn put_cut(text: &mut Text, cut: &CutAnswer) -> Result<(), NoMemory> {
    match cut {
        CutAnswer::Cut { bound, pieces } => put_pieces(text, *bound, pieces.as_slice()),
        CutAnswer::Late { task } => put_late(text, *task),
    }
}

fn put_pieces(text: &mut Text, bound: u64, pieces: &[u32]) -> Result<(), NoMemory> {
    put_number(text, b"bound ", bound)?;
    text.put(b" pieces")?;
    for piece in pieces {
        put_number(text, b" ", u64::from(*piece))?;
    }
    text.put(b"\n")
}

fn put_late(text: &mut Text, task: u32) -> Result<(), NoMemory> {
    put_number(text, b"late ", u64::from(task))?;
    text.put(b"\n")
}

/// Answers `order MODEL`: the best priorities, in the order of the tasks, or the core that has
/// none.
pub(crate) fn order_line<L: Ledger>(
    alloc: Global,
    model: &ValidModel,
    steps: &mut Steps<L>,
) -> Result<Text, NoMemory> {
    ordered(alloc, &order(alloc, model, steps)?)
}

fn ordered(alloc: Global, answer: &OrderAnswer) -> Result<Text, NoMemory> {
    let mut text = Text::new(alloc);
    match answer {
        OrderAnswer::Order { priorities } => put_priorities(&mut text, priorities.as_slice())?,
        OrderAnswer::NoOrder { core } => put_number(&mut text, b"none of core ", u64::from(*core))?,
    }
    text.put(b"\n")?;
    Ok(text)
}

fn put_priorities(text: &mut Text, priorities: &[u64]) -> Result<(), NoMemory> {
    text.put(b"priorities")?;
    put_numbers(text, priorities)
}

/// Answers `headroom MODEL`: the greatest percentage of the greatest execution times at which the
/// model is in range, no task is late and each requirement is met, or `none`.
pub(crate) fn headroom_line<L: Ledger>(
    alloc: Global,
    model: &ValidModel,
    steps: &mut Steps<L>,
) -> Result<Text, NoMemory> {
    match headroom(alloc, model, steps)? {
        Some(percent) => said(alloc, format!(in alloc; "{percent} percent")?.as_str()),
        None => said(alloc, "none"),
    }
}
