//! Commands over shelves and sinks in memory.
ghost use Rattle.std.specs.Prelude.{◌≡◌, ◌<◌};

use crate::run_surely;
use cl_io::{MemShelf, MemSink, Shelf, Sink, SureShelf, SureSink, Words};
use cl_time::{NoMemory, Steps};
use cl_top::run;
use std::alloc::Global;
use std::marker::Brand;
use std::sync::ledger::{Blank, Ledger};

/// The room of a sink in memory, which every text of these tests fits.
const ROOM: usize = 1024;

/// Makes the words of the analysis of a file of exactly this name.
pub(crate) fn analysis_of(alloc: Global, name: &str) -> Result<Words, NoMemory> {
    let mut words = Words::new(alloc);
    words.push("analyse")?;
    words.push(name)?;
    Ok(words)
}

/// Makes the words of a command on two files.
pub(crate) fn of_two_files(
    alloc: Global,
    verb: &str,
    first: &str,
    second: &str,
) -> Result<Words, NoMemory> {
    let mut words = Words::new(alloc);
    words.push(verb)?;
    words.push(first)?;
    words.push(second)?;
    Ok(words)
}

/// Analyses a file of this name and content, and returns the answer: the status, a blank, and what
/// was written.
pub(crate) fn analysed(alloc: Global, name: &str, content: &[u8]) -> Result<String, NoMemory> {
    let words = analysis_of(alloc, name)?;
    analysed_words(alloc, &words, name, content)
}

fn analysed_words(
    alloc: Global,
    words: &Words,
    name: &str,
    content: &[u8],
) -> Result<String, NoMemory> {
    let mut shelf = MemShelf::new(alloc);
    shelf.put(name, content)?;
    answered_over(alloc, words, &mut shelf)
}

/// Runs a command over a shelf and a sink in memory, and returns the answer: the status, a blank,
/// and what was written.
pub(crate) fn answered_over<S: Shelf>(
    alloc: Global,
    words: &Words,
    shelf: &mut S,
) -> Result<String, NoMemory> {
    let mut sink = MemSink::new(alloc, ROOM, ROOM)?;
    let status = run_here(alloc, words, shelf, &mut sink);
    spelled(alloc, status, sink.bytes())
}

/// Joins a status and what was written, with a blank between, to a text.
fn spelled(alloc: Global, status: u8, written: &[u8]) -> Result<String, NoMemory> {
    let text = str::from_utf8(written).unwrap_or("no text");
    Ok(format!(in alloc; "{status} {text}")?)
}

/// Runs a command with a counter of steps that nothing reads.
pub(crate) fn run_here<S: Shelf, K: Sink>(
    alloc: Global,
    words: &Words,
    shelf: &mut S,
    sink: &mut K,
) -> u8 {
    run_uncounted::<S, K, Brand>(alloc, words, shelf, sink, Blank::new(1))
}

/// Runs a command with a counter on this blank; `Invariants.antt` of `run_here` picks the ledger of
/// the blank.
fn run_uncounted<S: Shelf, K: Sink, L: Ledger>(
    alloc: Global,
    words: &Words,
    shelf: &mut S,
    sink: &mut K,
    blank: Blank,
) -> u8
    requires name { blank.name ≡ L.name }
    requires parts { blank.parts ≡ L.parts }
    requires a_part { 0 < blank.parts }
{
    let mut steps = Steps::<L>::open(blank);
    run(alloc, words, shelf, sink, &mut steps)
}

/// Runs a command over a shelf and a sink that never fail, with a counter of steps that nothing
/// reads.
pub(crate) fn run_surely_here(
    alloc: Global,
    words: &Words,
    shelf: &mut SureShelf,
    sink: &mut SureSink,
) -> u8 {
    run_surely_uncounted::<Brand>(alloc, words, shelf, sink, Blank::new(1))
}

/// Runs a command over a shelf and a sink that never fail, with a counter on this blank;
/// `Invariants.antt` of `run_surely_here` picks the ledger of the blank.
fn run_surely_uncounted<L: Ledger>(
    alloc: Global,
    words: &Words,
    shelf: &mut SureShelf,
    sink: &mut SureSink,
    blank: Blank,
) -> u8
    requires name { blank.name ≡ L.name }
    requires parts { blank.parts ≡ L.parts }
    requires a_part { 0 < blank.parts }
{
    let mut steps = Steps::<L>::open(blank);
    run_surely(alloc, words, shelf, sink, &mut steps)
}
