//! The survey of a model, as text.
ghost use Rattle.std.specs.Prelude.{◌≡◌, ◌^◌, ◌<◌, ◌++◌, count_by, unwrap_or, OnOk, IfOk};
ghost use Rattle.cl_model.specs.declared.chain.LengthKind.TheVariants.{Reaction, Age, Reduced};
ghost use Rattle.cl_analyse.specs.{Findings.AreFindings, Verdicts.bound_value};
ghost use Rattle.cl_bound.specs.Answers.{is_late};
ghost use Rattle.cl_report.specs.Survey.{is_settled, is_bounded, is_unbounded, is_exact, is_past, bound_sum, counted_line, tasks_line, chains_line, exacts_line, sums_line, survey_text};

use cl_analyse::{ChainAnswer, ExactAnswer, Findings};
use cl_bound::TaskAnswer;
use cl_model::{LengthKind, ValidModel};
use cl_text::Text;
use cl_time::NoMemory;
use std::alloc::Global;

/// Builds the survey of a model: a title; how many tasks there are, how many of them settled and
/// how many are late; how many chains there are, how many of them have bounds and how many are
/// late; how many chains have exact lengths and how many have a hyperperiod past the limit; and,
/// for each kind of length, the sum of the bounds of all chains that aren't late. Times are in
/// ticks. The findings are those of the model.
///
/// `NoMemory` comes where there is no memory for the text; it leaves nothing.
pub fn survey_text(alloc: Global, model: &ValidModel, findings: &Findings) -> Result<Text, NoMemory>
    requires { AreFindings model.now findings.now }
    ensures { IfOk result (λ text. text ≡ survey_text findings.now) }
{
    let tasks = model.tasks();
    prove!(findings.tasks.len() == tasks as usize);
    let mut text = Text::new(alloc);
    text.put(b"chainlat survey 1\n")?;
    put_tasks(&mut text, findings.tasks.as_slice())?;
    put_chains(&mut text, findings.chains.as_slice())?;
    put_exacts(&mut text, findings.exacts.as_slice())?;
    put_sums(&mut text, findings.chains.as_slice())?;
    Ok(text)
}

/// Puts a word and a number.
fn put_count(text: &mut Text, word: &[u8], count: u64) -> Result<(), NoMemory>
    ensures { OnOk result (text.new ≡ text.old ++ counted_line word.now count) }
{
    text.put(word)?;
    text.put_number(count)
}

/// Counts the tasks that settled.
fn count_settled(answers: &[TaskAnswer]) -> usize
    ensures { result ≡ count_by is_settled answers.now }
{
    answers.iter().filter(|answer| !answer.is_late()).count()
}

/// Counts the tasks that are late.
fn count_late(answers: &[TaskAnswer]) -> usize
    ensures { result ≡ count_by is_late answers.now }
{
    answers.iter().filter(|answer| answer.is_late()).count()
}

/// Puts the line that says how many tasks there are, how many of them settled, and how many are
/// late.
fn put_tasks(text: &mut Text, answers: &[TaskAnswer]) -> Result<(), NoMemory>
    ensures { OnOk result (text.new ≡ text.old ++ tasks_line answers.now) }
{
    put_count(text, b"tasks ", answers.len() as u64)?;
    put_count(text, b" settled ", count_settled(answers) as u64)?;
    put_count(text, b" late ", count_late(answers) as u64)?;
    text.put(b"\n")
}

/// Checks whether a chain has bounds.
fn is_bounded(answer: &ChainAnswer) -> bool
    ensures { result ≡ is_bounded answer.now }
{
    matches!(answer, ChainAnswer::Bounds(_))
}

/// Counts the chains that have bounds.
fn count_bounded(answers: &[ChainAnswer]) -> usize
    ensures { result ≡ count_by is_bounded answers.now }
{
    answers.iter().filter(|answer| is_bounded(answer)).count()
}

/// Counts the chains without bounds. Each has a late task.
fn count_unbounded(answers: &[ChainAnswer]) -> usize
    ensures { result ≡ count_by is_unbounded answers.now }
{
    answers.iter().filter(|answer| !is_bounded(answer)).count()
}

/// Puts the line that says how many chains there are, how many of them have bounds, and how many
/// are late.
fn put_chains(text: &mut Text, answers: &[ChainAnswer]) -> Result<(), NoMemory>
    ensures { OnOk result (text.new ≡ text.old ++ chains_line answers.now) }
{
    put_count(text, b"chains ", answers.len() as u64)?;
    put_count(text, b" bounded ", count_bounded(answers) as u64)?;
    put_count(text, b" late ", count_unbounded(answers) as u64)?;
    text.put(b"\n")
}

/// Checks whether a chain has exact lengths.
fn is_exact(answer: &ExactAnswer) -> bool
    ensures { result ≡ is_exact answer.now }
{
    matches!(answer, ExactAnswer::Exact(_))
}

/// Counts the chains that have exact lengths.
fn count_exact(answers: &[ExactAnswer]) -> usize
    ensures { result ≡ count_by is_exact answers.now }
{
    answers.iter().filter(|answer| is_exact(answer)).count()
}

/// Checks whether the hyperperiod of a chain exceeds the limit.
fn is_past(answer: &ExactAnswer) -> bool
    ensures { result ≡ is_past answer.now }
{
    matches!(answer, ExactAnswer::Past { .. })
}

/// Counts the chains whose hyperperiod exceeds the limit.
fn count_past(answers: &[ExactAnswer]) -> usize
    ensures { result ≡ count_by is_past answers.now }
{
    answers.iter().filter(|answer| is_past(answer)).count()
}

/// Puts the line that says how many chains have exact lengths, and how many have a hyperperiod past
/// the limit.
fn put_exacts(text: &mut Text, answers: &[ExactAnswer]) -> Result<(), NoMemory>
    ensures { OnOk result (text.new ≡ text.old ++ exacts_line answers.now) }
{
    put_count(text, b"exact ", count_exact(answers) as u64)?;
    put_count(text, b" past ", count_past(answers) as u64)?;
    text.put(b"\n")
}

/// Returns the bound on a kind of length of a chain, or 0 where the chain is late.
fn bound_or_none(answer: &ChainAnswer, kind: LengthKind) -> u64
    ensures { result ≡ unwrap_or (bound_value kind answer.now) 0 }
{
    answer.value(kind).unwrap_or(0)
}

/// Adds up the bounds on a kind of length, over the chains that have bounds.
fn bound_sum(answers: &[ChainAnswer], kind: LengthKind) -> u64
    requires { bound_sum kind answers.now < 2 ^ 64 }
    ensures { result ≡ bound_sum kind answers.now }
{
    answers
        .iter()
        .map(|answer| bound_or_none(answer, kind))
        .sum()
}

/// Puts the line with the sum of the bounds on each kind of length.
fn put_sums(text: &mut Text, answers: &[ChainAnswer]) -> Result<(), NoMemory>
    requires reaction { bound_sum Reaction answers.now < 2 ^ 64 }
    requires age { bound_sum Age answers.now < 2 ^ 64 }
    requires reduced { bound_sum Reduced answers.now < 2 ^ 64 }
    ensures { OnOk result (text.new ≡ text.old ++ sums_line answers.now) }
{
    put_count(
        text,
        b"sums reaction ",
        bound_sum(answers, LengthKind::Reaction),
    )?;
    put_count(text, b" age ", bound_sum(answers, LengthKind::Age))?;
    put_count(text, b" reduced ", bound_sum(answers, LengthKind::Reduced))?;
    text.put(b"\n")
}
