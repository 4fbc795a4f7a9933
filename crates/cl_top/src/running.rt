ghost use Rattle.std.specs.Prelude.{◌≡◌, ℕ, List, Some};
ghost use Rattle.cl_io.specs.Shelf.{Content};
ghost use Rattle.cl_engine.specs.{Calls.{shelf_call, sink_call}, Fetched.TellsFiles, Files.word, SoundCall.IsSoundCall, Language.files_of, Run.{ComesTo, CallEnds}, declared.status.TheConstants.{DONE, EDITS_REFUSED, NOT_VERIFIED}};
ghost use Rattle.cl_top.specs.{declared.command.Command.Command as AnyCommand, Command.command_of, Commands.commands, Headline.{HasReported, HasReportedSome}, Printed.{HasPrintedSafe, HasStoppedSafely, HasDecided, ProvesInTime}};

use crate::Command;
use cl_io::{Shelf, Sink, Words};
use cl_time::Steps;
use std::alloc::Global;
use std::rt::{Env, Files};
use std::sync::ledger::Ledger;

/// Runs the command that the words spell: it comes to an outcome, a status and a text, by what the
/// shelf gives of its files, and writes that text to the sink and answers that status, unless
/// memory ran out before or a write failed.
///
/// The statuses are the constants of `status`. All memory is taken before the first write, so at
/// `NO_MEMORY` the sink wasn't called; at `WRITE_FAULT` it took a proper prefix of the text, one
/// write failed, and it was the last. A text that is empty needs no call of the sink. The shelf's
/// numbers of names that are no file words stay as they were, where the words are no command the
/// shelf isn't called, and a second file is fetched only where the first is accepted.
pub fn run<S: Shelf, K: Sink, L: Ledger>(
    alloc: Global,
    words: &Words,
    shelf: &mut S,
    sink: &mut K,
    steps: &mut Steps<L>,
) -> u8
    // All that a call keeps: how it ends, what it leaves, when each status comes, and what it comes
    // to where the shelf tells the files.
    ensures kept { IsSoundCall commands words.now (shelf_call S.held S.faults S.longest shelf.old shelf.new) shelf.old shelf.new
        (sink_call K.written K.faults K.last_failed sink.old sink.new) steps.old steps.new result }

    // Of that, how it ends: out of memory, or with the outcome to which the words come, written
    // whole or cut short.
    ensures ends { CallEnds (ComesTo commands words.now (shelf_call S.held S.faults S.longest shelf.old shelf.new))
        (sink_call K.written K.faults K.last_failed sink.old sink.new) result }

    // It follows, the headline: what `analyse` has written at status 0 is the report of the model
    // that some bytes mean which may lie under its file's name, and so of the very bytes that the
    // shelf tells; its bounds are at least the lengths of all complete job chains in all legal
    // runs.
    ensures reported { result ≡ DONE → command_of words.now ≡ Some Command.Analyse
        → HasReportedSome (S.held shelf.old (word words.now 1)) (sink_call K.written K.faults K.last_failed sink.old sink.new) }
    ensures headline { result ≡ DONE → command_of words.now ≡ Some Command.Analyse
        → (bytes : List ℕ)
        → S.held shelf.old (word words.now 1) ≡ Content bytes
        → HasReported (sink_call K.written K.faults K.last_failed sink.old sink.new) bytes }

    // It follows, where `verify` ends with status 0: the model is in time. What the text says then is
    // in `safe`.
    ensures verified { result ≡ DONE → command_of words.now ≡ Some Command.Verify → (bytes : List ℕ)
        → S.held shelf.old (word words.now 1) ≡ Content bytes → ProvesInTime bytes }

    // It follows, where `verify` ends with status 13: the text says what is decided of the model, and
    // what it calls met holds in every legal run, what it calls broken is so in some, and what it
    // says is seen is so in some (`IsVerifyTextOf`).
    ensures decided { result ≡ NOT_VERIFIED → command_of words.now ≡ Some Command.Verify
        → (contents : ℕ → List ℕ)
        → TellsFiles (files_of commands words.now) words.now (S.held shelf.old) contents
        → HasDecided (sink_call K.written K.faults K.last_failed sink.old sink.new) contents }

    // It follows, of files that the shelf tells: what is printed at status 0 is safe. Seventeen commands
    // promise something of their text, each named at `meaning_of` in specs/Commands.antt; the others
    // print no bound of a given model.
    ensures safe { result ≡ DONE → (asked : AnyCommand) → command_of words.now ≡ Some asked
        → (contents : ℕ → List ℕ)
        → TellsFiles (files_of commands words.now) words.now (S.held shelf.old) contents
        → HasPrintedSafe (sink_call K.written K.faults K.last_failed sink.old sink.new) asked contents }

    // It follows, where `edit` ends with status 7: the text is what the edits before the refused
    // line have safely written, and that line.
    ensures stopped { result ≡ EDITS_REFUSED → command_of words.now ≡ Some Command.Edit
        → (contents : ℕ → List ℕ)
        → TellsFiles (files_of commands words.now) words.now (S.held shelf.old) contents
        → HasStoppedSafely (sink_call K.written K.faults K.last_failed sink.old sink.new) contents }
{
    cl_engine::run::<Command, S, K, L>(alloc, words, shelf, sink, steps)
}

/// Runs the program's own arguments over the files and the standard output of a runtime, and
/// returns the status that the program ends with: that of `run`, `ARGUMENT_NOT_TEXT` where an
/// argument isn't text, or `NO_MEMORY` where there is no memory for the arguments. In the latter
/// two cases nothing was written.
pub fn start<R: Env + Files + Print + AllocGlobal>(rt: &R) -> u8 {
    cl_engine::start::<Command, R>(rt)
}
