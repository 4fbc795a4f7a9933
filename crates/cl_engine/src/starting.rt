//! The start of the program: takes its arguments and calls `run` over the files and the standard
//! output of a real machine.
ghost use Rattle.std.specs.Prelude.{◌≡◌, ◌<◌, map, drop, string_bytes, IfOk, IfErr, OnErr, MatchResult};
ghost use Rattle.std.specs.Vec.Iter.{into_iter_items};
ghost use Rattle.cl_engine.specs.{Calls.{shelf_call, sink_call}, Edges.IsStatusOfError, SoundCall.IsSoundCall, Run.MayEndWith};

use crate::status::{ARGUMENT_NOT_TEXT, NO_MEMORY};
use crate::{Command, FileShelf, OutSink, run};
use cl_io::{Shelf, Sink, Words};
use cl_time::{NoMemory, Steps};
use std::alloc::{AllocError, Global};
use std::env::Args;
use std::io::ErrorKind;
use std::marker::Brand;
use std::rt::{Env, Files};
use std::sync::ledger::{Blank, Ledger};
use std::{env, io};

/// Runs the command that the program's own arguments spell, over the files and the standard output
/// of a runtime, and returns the status that the program ends with.
///
/// That is the status of `run`; or `ARGUMENT_NOT_TEXT`, where an argument isn't text (UTF-8); or
/// `NO_MEMORY`, where there is no memory for the arguments. In the last two cases no file is read
/// and nothing is written.
pub fn start<C: Command, R: Env + Files + Print + AllocGlobal>(rt: &R) -> u8 {
    start_with::<C, R, Brand>(rt, env::args(rt), Blank::new(1))
}

/// Runs the command that the arguments after the first spell (the first is the program's own name),
/// with a counter of steps on this blank that nothing reads. Where there is an error in place of
/// the arguments, returns the status of that error.
fn start_with<C: Command, R: Files + Print + AllocGlobal, L: Ledger>(
    rt: &R,
    arguments: io::Result<Args>,
    blank: Blank,
) -> u8
    requires name { blank.name ≡ L.name }
    requires parts { blank.parts ≡ L.parts }
    requires a_part { 0 < blank.parts }
    ensures { MatchResult arguments
        (λ given. MayEndWith C.language (map string_bytes (drop 1 (into_iter_items given))) result)
        (λ error. IsStatusOfError error result) }
{
    let alloc = rt.alloc();
    let mut shelf = FileShelf::new(alloc, rt);
    let mut sink = OutSink::new(rt);
    let mut steps = Steps::<L>::open(blank);
    run_arguments::<C, FileShelf<'_, R>, OutSink<'_, R>, L>(
        alloc, arguments, &mut shelf, &mut sink, &mut steps,
    )
}

/// Runs the command that the arguments after the first spell, over any shelf and any sink. Where
/// there is an error in place of the arguments, calls neither and returns the status of that error.
fn run_arguments<C: Command, S: Shelf, K: Sink, L: Ledger>(
    alloc: Global,
    arguments: io::Result<Args>,
    shelf: &mut S,
    sink: &mut K,
    steps: &mut Steps<L>,
) -> u8
    ensures given { IfOk arguments
        (λ given. IsSoundCall C.language (map string_bytes (drop 1 (into_iter_items given)))
        (shelf_call S.held S.faults S.longest shelf.old shelf.new) shelf.old shelf.new
        (sink_call K.written K.faults K.last_failed sink.old sink.new) steps.old steps.new result) }
    ensures not_given { IfErr arguments (λ error. IsStatusOfError error result) }
    ensures uncalled { OnErr arguments ((shelf.new ≡ shelf.old) × (sink.new ≡ sink.old)) }
    ensures not_text { result ≡ ARGUMENT_NOT_TEXT → sink.new ≡ sink.old }
{
    match arguments {
        Ok(arguments) => match words_of(alloc, arguments) {
            Ok(words) => run::<C, S, K, L>(alloc, &words, shelf, sink, steps),
            Err(NoMemory) => NO_MEMORY,
        },
        Err(error) => status_of(&error),
    }
}

/// Returns the arguments after the first, which is the program's own name, as they stand.
fn words_of(alloc: Global, arguments: Args) -> Result<Words, NoMemory>
    ensures { IfOk result (λ words. words ≡ map string_bytes (drop 1 (into_iter_items arguments))) }
{
    let arguments = all_of(alloc, arguments)?;
    match arguments.as_slice().split_first() {
        Some((_, rest)) => pushed(alloc, rest),
        None => Ok(Words::new(alloc)),
    }
}

/// Collects all arguments in a vector.
fn all_of(alloc: Global, arguments: Args) -> Result<Vec<String>, AllocError>
    ensures { IfOk result (λ all. all.items ≡ into_iter_items arguments) }
{
    arguments.collect(alloc)
}

/// Copies these arguments as words, in order and as they stand.
fn pushed(alloc: Global, arguments: &[String]) -> Result<Words, NoMemory>
    ensures { IfOk result (λ words. words ≡ map string_bytes arguments.now) }
{
    let mut words = Words::new(alloc);
    for argument in arguments {
        words.push(argument.as_str())?;
    }
    Ok(words)
}

/// Returns the status where the system didn't give the arguments: `NO_MEMORY` for want of memory,
/// and `ARGUMENT_NOT_TEXT` for every other error.
fn status_of(error: &io::Error) -> u8
    ensures { IsStatusOfError error.now result }
{
    if error.kind() == ErrorKind::OutOfMemory {
        NO_MEMORY
    } else {
        ARGUMENT_NOT_TEXT
    }
}
