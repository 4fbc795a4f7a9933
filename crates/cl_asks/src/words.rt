//! The words of a question, and the lines that several answers share.
ghost use Rattle.std.specs.Prelude.{◌<◌, length, IfSome};

use cl_io::Words;
use cl_model::{ModelFault, ValidModel};
use cl_text::{LinesFault, Text, read_decimal};
use cl_time::NoMemory;
use std::alloc::Global;

/// Returns the word at index `place`, empty past the last one.
pub(crate) fn word(words: &Words, place: usize) -> &str {
    words.at(place).unwrap_or("")
}

/// Reads the decimal number that the word at index `place` spells.
pub(crate) fn number_at(words: &Words, place: usize) -> Option<u64> {
    read_decimal(word(words, place).as_bytes(), u64::MAX)
}

/// Reads a number below `count` from the word at index `place`.
pub(crate) fn number_below(words: &Words, place: usize, count: u32) -> Option<u32>
    ensures { IfSome result (λ number. number < count) }
{
    let number = number_at(words, place)?;
    if number < u64::from(count) {
        Some(number as u32)
    } else {
        None
    }
}

/// Reads the number of a chain from the word at index `place`.
pub(crate) fn chain_at(words: &Words, place: usize, model: &ValidModel) -> Option<u32>
    ensures { IfSome result (λ chain. chain < length model.now.chains) }
{
    number_below(words, place, model.chains())
}

/// Reads the number of a task from the word at index `place`.
pub(crate) fn task_at(words: &Words, place: usize, model: &ValidModel) -> Option<u32>
    ensures { IfSome result (λ task. task < length model.now.tasks) }
{
    number_below(words, place, model.tasks())
}

/// Makes an answer of one line.
pub(crate) fn said(alloc: Global, line: &str) -> Result<Text, NoMemory> {
    let mut text = Text::new(alloc);
    text.put(line.as_bytes())?;
    text.put(b"\n")?;
    Ok(text)
}

/// Answers a question whose words spell no number that fits.
pub(crate) fn no_such_number(alloc: Global) -> Result<Text, NoMemory> {
    said(alloc, "no such number")
}

/// Answers why a model or an edit is refused.
pub(crate) fn refused(alloc: Global, fault: ModelFault) -> Result<Text, NoMemory> {
    match fault {
        ModelFault::Refused(refusal) => {
            said(alloc, format!(in alloc; "refused {refusal}")?.as_str())
        }
        ModelFault::NoMemory => Err(NoMemory),
    }
}

/// Answers which line of a list of edits or of a trace is the first bad one.
pub(crate) fn unread(alloc: Global, fault: LinesFault) -> Result<Text, NoMemory> {
    match fault {
        LinesFault::BadLine { line } => said(alloc, format!(in alloc; "bad line {line}")?.as_str()),
        LinesFault::NoMemory => Err(NoMemory),
    }
}

/// Puts words, and a number behind them.
pub(crate) fn put_number(text: &mut Text, before: &[u8], number: u64) -> Result<(), NoMemory> {
    text.put(before)?;
    text.put_number(number)
}

/// Puts numbers, with a blank in front of each.
pub(crate) fn put_numbers(text: &mut Text, numbers: &[u64]) -> Result<(), NoMemory> {
    for number in numbers {
        put_number(text, b" ", *number)?;
    }
    Ok(())
}
