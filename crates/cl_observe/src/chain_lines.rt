//! The lines of what a run shows of the chains of a model.
ghost use Rattle.std.specs.Prelude.{◌≡◌, ◌<◌, ◌++◌, length, OnOk};
ghost use Rattle.cl_runs.specs.{SystemOf.system_of, Run.IsInForm};
ghost use Rattle.cl_analyse.specs.ChainAnswers.{chain_answer_at};
ghost use Rattle.cl_check.specs.{Apart.StandApart, InOrder.IsRunInOrder};
ghost use Rattle.cl_chain.specs.JobChains.{option_of, measured_of};
ghost use Rattle.cl_observe.specs.Observed.{length_of, length_words, kind_length_line, kind_length_lines, GoesOnWith, IsMadeOf, IsChainText};

use crate::values::since;
use crate::words::put_bound_beside;
use cl_analyse::ChainAnswer;
use cl_chain::{JobChain, Measured, measure_with_delay_apart};
use cl_explain::put_signed;
use cl_model::{LengthKind, RequirementKind, ValidModel};
use cl_report::{kind_word, put_chain_name};
use cl_run_data::RunData;
use cl_text::Text;
use cl_time::NoMemory;
use std::alloc::Global;

/// Puts the lines of all chains in file order. `apart` has a list of entries for each task, as
/// `tasks_apart` returns it.
pub(crate) fn put_chains(
    alloc: Global,
    text: &mut Text,
    model: &ValidModel,
    answers: &[ChainAnswer],
    run: &RunData,
    apart: &RunData,
) -> Result<(), NoMemory>
    requires answers { length answers.now ≡ length model.now.chains }
    requires in_form { IsInForm (system_of model.now) run.now }
    requires in_order { IsRunInOrder (system_of model.now) run.now }
    requires apart { StandApart (system_of model.now) run.now apart.now }
    ensures { OnOk result
        (GoesOnWith (IsMadeOf (λ chain. IsChainText model.now run.now (chain_answer_at answers.now chain) chain) (length model.now.chains)) text.old text.new) }
{
    for chain in 0..model.chains() {
        let answer = &answers[chain as usize];
        put_chain(alloc, text, model, answer, run, apart, chain)?;
    }
    Ok(())
}

/// Puts the lines of a chain that has this answer.
fn put_chain(
    alloc: Global,
    text: &mut Text,
    model: &ValidModel,
    answer: &ChainAnswer,
    run: &RunData,
    apart: &RunData,
    chain: u32,
) -> Result<(), NoMemory>
    requires chain { chain < length model.now.chains }
    requires in_form { IsInForm (system_of model.now) run.now }
    requires in_order { IsRunInOrder (system_of model.now) run.now }
    requires apart { StandApart (system_of model.now) run.now apart.now }
    ensures { OnOk result (GoesOnWith (IsChainText model.now run.now answer.now chain) text.old text.new) }
{
    // So that it is known that the model is valid.
    let _valid = model.plain();
    let (measured, delay) = measure_with_delay_apart(alloc, model, run, apart, chain)?;
    put_lengths(text, model, answer, chain, &measured, &delay)
}

/// Puts the lines of a chain that has this answer, one for each kind of length.
fn put_lengths(
    text: &mut Text,
    model: &ValidModel,
    answer: &ChainAnswer,
    chain: u32,
    measured: &Measured,
    greatest: &Option<JobChain>,
) -> Result<(), NoMemory>
    requires { chain < length model.now.chains }
    ensures { OnOk result (text.new ≡ text.old
        ++ kind_length_lines model.now answer.now chain (measured_of measured.now) (length_of (option_of greatest.now))) }
{
    let reaction = RequirementKind::Length(LengthKind::Reaction);
    put_length(
        text,
        model,
        answer,
        chain,
        reaction,
        length_of(&measured.reaction),
    )?;
    let age = RequirementKind::Length(LengthKind::Age);
    put_length(text, model, answer, chain, age, length_of(&measured.age))?;
    let reduced = RequirementKind::Length(LengthKind::Reduced);
    put_length(
        text,
        model,
        answer,
        chain,
        reduced,
        length_of(&measured.reduced),
    )?;
    let delay = RequirementKind::Delay;
    put_length(text, model, answer, chain, delay, length_of(greatest))
}

/// Puts the line of a kind of length of a chain, or that the run has no chain of the kind.
fn put_length(
    text: &mut Text,
    model: &ValidModel,
    answer: &ChainAnswer,
    chain: u32,
    kind: RequirementKind,
    ticks: Option<i128>,
) -> Result<(), NoMemory>
    requires { chain < length model.now.chains }
    ensures { OnOk result
        (text.new ≡ text.old ++ kind_length_line model.now answer.now chain kind ticks) }
{
    text.put(b"chain ")?;
    put_chain_name(text, model, chain)?;
    text.put(b" ")?;
    text.put(kind_word(kind))?;
    text.put(b" ")?;
    put_number(text, ticks)?;
    put_bound_beside(text, ticks, answer.required(kind))?;
    text.put(b"\n")
}

/// Computes how long a chain lasts, if there is one.
fn length_of(longest: &Option<JobChain>) -> Option<i128>
    ensures { result ≡ length_of (option_of longest.now) }
{
    match longest {
        None => None,
        Some(chain) => Some(since(chain.from, chain.to)),
    }
}

/// Puts a length, or that there is none.
fn put_number(text: &mut Text, length: Option<i128>) -> Result<(), NoMemory>
    ensures { OnOk result (text.new ≡ text.old ++ length_words length) }
{
    match length {
        None => text.put(b"none"),
        Some(length) => put_signed(text, length),
    }
}
