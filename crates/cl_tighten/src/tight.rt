//! The texts of tight findings.
ghost use Rattle.std.specs.Prelude.{◌≡◌, ℕ, ◌<◌, ◌++◌, length, OnOk, IfOk};
ghost use Rattle.cl_analyse.specs.declared.findings.ChainAnswer.TheVariants.{Late};
ghost use Rattle.cl_tight.specs.TightFindings.{tight_chain_answers_of, tight_findings_of};
ghost use Rattle.cl_tighten.specs.Tight.{tight_words, tight_chain_line, tight_chain_lines, tight_text};

use cl_analyse::ChainAnswer;
use cl_model::{List, ValidModel};
use cl_report::{put_bounds, put_chain_answer, put_chain_name, put_tasks};
use cl_text::Text;
use cl_tight::TightFindings;
use cl_time::NoMemory;
use std::alloc::Global;

/// Builds the report of a model by responses by phases and tight bounds: a title, a line for each
/// task and a line for each chain, each in file order. Times are in ticks. The findings are those of
/// the model.
///
/// `NoMemory` comes where there is no memory for the text; it leaves nothing.
pub fn tight_report(
    alloc: Global,
    model: &ValidModel,
    findings: &TightFindings,
) -> Result<Text, NoMemory>
    requires { findings.now ≡ tight_findings_of model.now }
    ensures { IfOk result (λ text. text ≡ tight_text model.now) }
{
    let mut text = Text::new(alloc);
    text.put(b"chainlat tight 2\n")?;
    put_tasks(&mut text, model, &findings.tasks)?;
    put_bounded(&mut text, model, &findings.chains)?;
    Ok(text)
}

/// Puts the lines of all chains in file order. The answers are those of the model by tight bounds.
fn put_bounded(
    text: &mut Text,
    model: &ValidModel,
    chains: &List<ChainAnswer>,
) -> Result<(), NoMemory>
    requires { chains.now ≡ tight_chain_answers_of model.now }
    ensures { OnOk result (text.new ≡ text.old ++ tight_chain_lines model.now chains.now) }
{
    for chain in 0..model.chains() {
        put_tight_chain(text, model, &chains.as_slice()[chain as usize], chain)?;
    }
    Ok(())
}

/// Puts the line of a chain with this answer. A late task that the answer names is a task of the
/// model.
fn put_tight_chain(
    text: &mut Text,
    model: &ValidModel,
    answer: &ChainAnswer,
    chain: u32,
) -> Result<(), NoMemory>
    requires within { chain < length model.now.chains }
    requires known { (late : ℕ) → answer.now ≡ Late late → late < length model.now.tasks }
    ensures { OnOk result (text.new ≡ text.old ++ tight_chain_line model.now answer.now chain) }
{
    text.put(b"chain ")?;
    put_chain_name(text, model, chain)?;
    put_tight_answer(text, model, answer)?;
    text.put(b"\n")
}

/// Puts the tight bounds of a chain and its delay, or the late task that leaves it without bounds.
fn put_tight_answer(
    text: &mut Text,
    model: &ValidModel,
    answer: &ChainAnswer,
) -> Result<(), NoMemory>
    requires { (late : ℕ) → answer.now ≡ Late late → late < length model.now.tasks }
    ensures { OnOk result (text.new ≡ text.old ++ tight_words model.now answer.now) }
{
    match answer {
        ChainAnswer::Bounds(bounds) => {
            put_bounds(text, bounds)?;
            text.put(b" delay ")?;
            text.put_number(bounds.delay())
        }
        ChainAnswer::Late { .. } => put_chain_answer(text, model, answer),
    }
}
