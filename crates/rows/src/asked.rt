//! Answers to questions, whose first word is `ask`.
ghost use Rattle.std.specs.Prelude.{◌≡◌, ◌<◌};

use crate::answers::Found;
use crate::fault::Fault;
use cl_asks::ask;
use cl_io::{MemShelf, Words};
use cl_text::Text;
use cl_time::{NoMemory, Steps};
use std::alloc::Global;
use std::marker::Brand;
use std::sync::ledger::{Blank, Ledger};

/// Checks whether words ask a question.
pub(crate) fn is_question(words: &Words) -> bool {
    words.at(0) == Some("ask")
}

/// Answers a question over a shelf, with the status of a command that did what it says.
pub(crate) fn asked(alloc: Global, words: &Words, shelf: &mut MemShelf) -> Result<Found, Fault> {
    found(alloc, &ask_here(alloc, words, shelf)?)
}

fn found(alloc: Global, text: &Text) -> Result<Found, Fault> {
    let text = Vec::from_slice(alloc, text.as_slice())?;
    Ok(Found { status: 0, text })
}

/// Asks with a counter of steps that nothing reads.
fn ask_here(alloc: Global, words: &Words, shelf: &mut MemShelf) -> Result<Text, NoMemory> {
    ask_uncounted::<Brand>(alloc, words, shelf, Blank::new(1))
}

/// Asks with a counter on this blank; `Invariants.antt` of `ask_here` picks the ledger of the
/// blank.
fn ask_uncounted<L: Ledger>(
    alloc: Global,
    words: &Words,
    shelf: &mut MemShelf,
    blank: Blank,
) -> Result<Text, NoMemory>
    requires name { blank.name ≡ L.name }
    requires parts { blank.parts ≡ L.parts }
    requires a_part { 0 < blank.parts }
{
    let mut steps = Steps::<L>::open(blank);
    ask(alloc, words, shelf, &mut steps)
}
