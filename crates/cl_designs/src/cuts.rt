//! The text of the best cuts of all chains. Times are in ticks.
ghost use Rattle.std.specs.Prelude.{◌≡◌, ℕ, ◌<◌, ◌++◌, length, OnOk, IfOk};
ghost use Rattle.std.specs.List.{flat_map, range_with_len};
ghost use Rattle.cl_cut.specs.{declared.answer.CutAnswer.TheVariants.Late, CutAnswers.AreCutAnswers};
ghost use Rattle.cl_designs.specs.Cuts.{piece_words, pieces_words, cut_bound_words, cut_words, cut_line, cut_text, IsCutTextOf};

use cl_analyse::analyse;
use cl_cut::{CutAnswer, best_cuts};
use cl_model::ValidModel;
use cl_report::{put_name, put_task_name};
use cl_text::Text;
use cl_time::{NoMemory, Steps};
use std::alloc::Global;
use std::sync::ledger::Ledger;

/// Makes the text of the best cuts: a title, and a line for each chain in file order. The line has
/// the name of the chain, the cost of its best cut in ticks, which bounds the reaction of the
/// chain, and the number of the first group of each piece, counted from 0. Where a task of the
/// chain is late, the line has in place of these numbers the name of the first late task along the
/// steps of the chain.
///
/// The model is analysed first. `NoMemory` comes where there is no memory for the findings, for the
/// cuts or for the text; it leaves nothing.
pub fn cut_text<L: Ledger>(
    alloc: Global,
    model: &ValidModel,
    steps: &mut Steps<L>,
) -> Result<Text, NoMemory>
    ensures { IfOk result (IsCutTextOf model.now) }
{
    let findings = analyse(alloc, model, steps)?;
    let answers = best_cuts(alloc, model, &findings, steps)?;
    text_of(alloc, model, answers.as_slice())
}

/// Makes the text of the answers for all chains.
fn text_of(alloc: Global, model: &ValidModel, answers: &[CutAnswer]) -> Result<Text, NoMemory>
    requires { AreCutAnswers model.now answers.now }
    ensures { IfOk result (λ text. text ≡ cut_text model.now answers.now) }
{
    let mut text = Text::new(alloc);
    text.put(b"chainlat cut 1\n")?;
    put_cuts(&mut text, model, answers)?;
    Ok(text)
}

/// Puts the lines of all chains.
fn put_cuts(text: &mut Text, model: &ValidModel, answers: &[CutAnswer]) -> Result<(), NoMemory>
    requires { AreCutAnswers model.now answers.now }
    ensures { OnOk result (text.new ≡ text.old
        ++ flat_map (cut_line model.now answers.now) (range_with_len 0 (length model.now.chains))) }
{
    for chain in 0..model.chains() {
        put_chain(text, model, answers, chain)?;
    }
    Ok(())
}

/// Puts the line of a chain.
fn put_chain(
    text: &mut Text,
    model: &ValidModel,
    answers: &[CutAnswer],
    chain: u32,
) -> Result<(), NoMemory>
    requires answers { AreCutAnswers model.now answers.now }
    requires within { chain < length model.now.chains }
    ensures { OnOk result (text.new ≡ text.old ++ cut_line model.now answers.now chain) }
{
    text.put(b"cut ")?;
    put_name(text, &model.chain(chain).name)?;
    put_cut(text, model, &answers[chain as usize])?;
    text.put(b"\n")
}

/// Puts the answer for a chain.
fn put_cut(text: &mut Text, model: &ValidModel, answer: &CutAnswer) -> Result<(), NoMemory>
    requires { (late : ℕ) → answer.now ≡ Late late → late < length model.now.tasks }
    ensures { OnOk result (text.new ≡ text.old ++ cut_words model.now answer.now) }
{
    match answer {
        CutAnswer::Cut { bound, pieces } => put_bound(text, *bound, pieces.as_slice()),
        CutAnswer::Late { task } => put_late(text, model, *task),
    }
}

/// Puts the cost of a cut and its pieces.
fn put_bound(text: &mut Text, bound: u64, pieces: &[u32]) -> Result<(), NoMemory>
    ensures { OnOk result (text.new ≡ text.old ++ cut_bound_words bound pieces.now) }
{
    text.put(b" bound ")?;
    text.put_number(bound)?;
    text.put(b" pieces")?;
    put_pieces(text, pieces)
}

/// Puts the numbers of the first groups of pieces.
fn put_pieces(text: &mut Text, pieces: &[u32]) -> Result<(), NoMemory>
    ensures { OnOk result (text.new ≡ text.old ++ pieces_words pieces.now) }
{
    for first in pieces {
        put_piece(text, *first)?;
    }
    Ok(())
}

/// Puts the number of the first group of a piece.
fn put_piece(text: &mut Text, first: u32) -> Result<(), NoMemory>
    ensures { OnOk result (text.new ≡ text.old ++ piece_words first) }
{
    text.put(b" ")?;
    text.put_number(u64::from(first))
}

/// Puts the name of a late task.
fn put_late(text: &mut Text, model: &ValidModel, task: u32) -> Result<(), NoMemory>
    requires { task < length model.now.tasks }
    ensures { OnOk result (text.new ≡ text.old ++ cut_words model.now (Late task)) }
{
    text.put(b" late ")?;
    put_task_name(text, model, task)
}
