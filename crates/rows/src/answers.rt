//! The answers of the commands of a case.
ghost use Rattle.std.specs.Prelude.{◌≡◌, ◌<◌};

use crate::asked::{asked, is_question};
use crate::case::Case;
use crate::case_file::{CaseFile, remove_file};
use crate::fault::Fault;
use crate::limits::Limits;
use cl_io::{MemShelf, MemSink, Shelf, Sink, Words};
use cl_time::Steps;
use cl_top::run;
use std::alloc::Global;
use std::marker::Brand;
use std::sync::ledger::{Blank, Ledger};

/// The status of a command, and all that it has written.
#[derive(Drop)]
pub(crate) struct Found {
    pub(crate) status: u8,
    pub(crate) text: Vec<u8>,
}

/// Runs a command or a question over the files of a case.
pub(crate) fn answered(case: &Case, command: &str) -> Result<Found, Fault> {
    let words = words_of(case.alloc, command)?;
    answered_words(case.alloc, &words, case.files.as_slice(), case.limits)
}

/// Runs a command or a question over the files of a case once the model, whose name is the second
/// word, is what `migrate` makes of it. Where `migrate` doesn't end with status 0, its answer is
/// returned.
pub(crate) fn answered_migrated(mut case: Case, command: &str) -> Result<Found, Fault> {
    let name = model_name(case.alloc, command)?;
    let migration = format!(in case.alloc; "migrate {name}")?;
    let words = words_of(case.alloc, migration.as_str())?;
    let migrated = answered_words(case.alloc, &words, case.files.as_slice(), Limits::none())?;
    if migrated.status != 0 {
        return Ok(migrated);
    }
    remove_file(&mut case.files, name.as_str());
    let file = CaseFile::new(case.alloc, name.as_str(), migrated.text)?;
    case.files.push(file)?;
    answered(&case, command)
}

/// Returns the second word, which names the model. Words without one are refused.
fn model_name(alloc: Global, words: &str) -> Result<String, Fault> {
    match words.split_whitespace().nth(1) {
        Some(name) => Ok(String::from_str(alloc, name)?),
        None => Err(Fault::Refused("no model to migrate")),
    }
}

/// Splits a line into its words.
fn words_of(alloc: Global, line: &str) -> Result<Words, Fault> {
    let mut words = Words::new(alloc);
    for word in line.split_whitespace() {
        words.push(word)?;
    }
    Ok(words)
}

/// Runs a command or a question over these files.
fn answered_words(
    alloc: Global,
    words: &Words,
    files: &[CaseFile],
    limits: Limits,
) -> Result<Found, Fault> {
    let mut shelf = shelf_of(alloc, files)?;
    if let Some(call) = limits.fetch {
        shelf.fail_call(call)?;
    }
    answered_over(alloc, words, &mut shelf, limits)
}

/// Makes a shelf that holds these files.
fn shelf_of(alloc: Global, files: &[CaseFile]) -> Result<MemShelf, Fault> {
    let mut shelf = MemShelf::new(alloc);
    for file in files {
        shelf.put(file.name.as_str(), file.content.as_slice())?;
    }
    Ok(shelf)
}

/// Runs a command over a shelf, or asks a question.
fn answered_over(
    alloc: Global,
    words: &Words,
    shelf: &mut MemShelf,
    limits: Limits,
) -> Result<Found, Fault> {
    if is_question(words) {
        asked(alloc, words, shelf)
    } else {
        commanded(alloc, words, shelf, limits)
    }
}

/// Runs a command over a shelf, and returns its status and what it has written.
fn commanded(
    alloc: Global,
    words: &Words,
    shelf: &mut MemShelf,
    limits: Limits,
) -> Result<Found, Fault> {
    let mut sink = sink_of(alloc, limits)?;
    let status = run_here(alloc, words, shelf, &mut sink);
    let text = Vec::from_slice(alloc, sink.bytes())?;
    Ok(Found { status, text })
}

/// Makes a sink with these limits.
fn sink_of(alloc: Global, limits: Limits) -> Result<MemSink, Fault> {
    let mut sink = MemSink::new(alloc, limits.room, limits.step.max(1))?;
    if let Some(call) = limits.write {
        sink.fail_call(call)?;
    }
    Ok(sink)
}

/// Runs a command with a counter of steps that nothing reads.
fn run_here<S: Shelf, K: Sink>(alloc: Global, words: &Words, shelf: &mut S, sink: &mut K) -> u8 {
    run_uncounted::<S, K, Brand>(alloc, words, shelf, sink, Blank::new(1))
}

/// Runs a command with a counter on this blank; `Invariants.antt` of `run_here` picks the ledger of
/// the blank.
fn run_uncounted<S: Shelf, K: Sink, L: Ledger>(
    alloc: Global,
    words: &Words,
    shelf: &mut S,
    sink: &mut K,
    blank: Blank,
) -> u8
    requires name { blank.name ≡ L.name }
    requires parts { blank.parts ≡ L.parts }
    requires a_part { 0 < blank.parts }
{
    let mut steps = Steps::<L>::open(blank);
    run(alloc, words, shelf, sink, &mut steps)
}
