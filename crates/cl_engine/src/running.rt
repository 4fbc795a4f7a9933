ghost use Rattle.std.specs.Prelude.{◌≡◌, ◌⊎◌, None, Some, IfOk};
ghost use Rattle.cl_engine.specs.{Calls.{shelf_call, sink_call}, Inner.Leaving.{LeavesRest, IsCaused}, SoundCall.IsSoundCall, Language.HasFileWords, Run.{ComesTo, IsWhole, IsCutShort}};

use crate::opening::{Opened, open};
use crate::{Command, Outcome, status};
use cl_io::{Shelf, Sink, Words, WriteFault, write_all};
use cl_time::{NoMemory, Steps};
use std::alloc::Global;
use std::sync::ledger::Ledger;

/// Runs the command that the words spell: finds its outcome, a status and a text, by what the shelf
/// gives of its files, writes the text to the sink, and returns the status.
///
/// The statuses are the constants of `status`. `NO_MEMORY` comes where memory runs out; since all
/// memory is taken before the first write, the sink wasn't called. `WRITE_FAULT` comes where a
/// write failed: the sink took a proper prefix of the text, exactly one write failed, and it was
/// the last. An empty text needs no call of the sink.
///
/// The shelf isn't called where the words are no command, and a second file is fetched only where
/// the first holds a valid model. What the shelf holds stays as it was, and so do its numbers of
/// every name that is no file word.
pub fn run<C: Command, S: Shelf, K: Sink, L: Ledger>(
    alloc: Global,
    words: &Words,
    shelf: &mut S,
    sink: &mut K,
    steps: &mut Steps<L>,
) -> u8
    ensures { IsSoundCall C.language words.now (shelf_call S.held S.faults S.longest shelf.old shelf.new) shelf.old shelf.new
        (sink_call K.written K.faults K.last_failed sink.old sink.new) steps.old steps.new result }
{
    match find_outcome::<C, S, L>(alloc, words, shelf, steps) {
        Ok(outcome) => carry_out(sink, &outcome),
        Err(NoMemory) => status::NO_MEMORY,
    }
}

/// Finds the outcome of the words: that of their command, or the one for words that are no command.
/// Fetches only the files that this needs.
fn find_outcome<C: Command, S: Shelf, L: Ledger>(
    alloc: Global,
    words: &Words,
    shelf: &mut S,
    steps: &mut Steps<L>,
) -> Result<Outcome, NoMemory>
    ensures comes { IfOk result
        (ComesTo C.language words.now (shelf_call S.held S.faults S.longest shelf.old shelf.new)) }
    ensures caused { IfOk result
        (IsCaused C.language words.now (shelf_call S.held S.faults S.longest shelf.old shelf.new)) }
    ensures leaves { LeavesRest C.language words.now (shelf_call S.held S.faults S.longest shelf.old shelf.new) steps.old steps.new }
    ensures unasked { C.language.spelled words.now ≡ None → shelf.new ≡ shelf.old }
{
    match C::read(words) {
        Some(asked) => answer(alloc, words, asked, shelf, steps),
        None => Outcome::words_refused(alloc),
    }
}

/// Opens the files of the command that the words spell, and finds its outcome. Where the files
/// can't be opened, the outcome says so.
fn answer<C: Command, S: Shelf, L: Ledger>(
    alloc: Global,
    words: &Words,
    asked: C,
    shelf: &mut S,
    steps: &mut Steps<L>,
) -> Result<Outcome, NoMemory>
    requires spelled { C.language.spelled words.now ≡ Some asked }
    requires file_words { HasFileWords C.language words.now asked }
    ensures comes { IfOk result
        (ComesTo C.language words.now (shelf_call S.held S.faults S.longest shelf.old shelf.new)) }
    ensures caused { IfOk result
        (IsCaused C.language words.now (shelf_call S.held S.faults S.longest shelf.old shelf.new)) }
    ensures leaves { LeavesRest C.language words.now (shelf_call S.held S.faults S.longest shelf.old shelf.new) steps.old steps.new }
{
    match open(alloc, words, asked.files(), shelf)? {
        Opened::Held(given) => asked.answer(alloc, given, steps),
        Opened::Stopped(outcome) => Ok(outcome),
    }
}

/// Writes the outcome's text, and returns the outcome's status, or `WRITE_FAULT` where a write
/// failed.
fn carry_out<K: Sink>(sink: &mut K, outcome: &Outcome) -> u8
    ensures { IsWhole (sink_call K.written K.faults K.last_failed sink.old sink.new) outcome.now result
        ⊎ IsCutShort (sink_call K.written K.faults K.last_failed sink.old sink.new) outcome.now result }
{
    match write_all(sink, outcome.text.as_slice()) {
        Ok(()) => outcome.status,
        Err(WriteFault::Failed { .. }) => status::WRITE_FAULT,
    }
}
