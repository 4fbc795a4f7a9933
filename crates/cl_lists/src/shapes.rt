//! The lines that a list of edits may have: their first words, and the shape of each.
ghost use Rattle.std.specs.Prelude.{◌≡◌, option_map};
ghost use Rattle.std.specs.Str.{bytes_eq};
ghost use Rattle.cl_lists.specs.Shapes.{early_shape, later_shape, shape_of, words_text};

use cl_edit::Version;

/// Whether a word is this one.
pub(crate) fn is(word: &[u8], name: &str) -> bool
    ensures { result ≡ bytes_eq word.now name.now }
{
    word == name.as_bytes()
}

/// Returns the shape of the lines of both versions that begin with this word.
fn early_shape(word: &[u8]) -> Option<&'static [u8]>
    ensures { option_map (λ shape. shape.now) result ≡ early_shape word.now }
{
    if is(word, "range") {
        Some(b"range RUNNABLE LEAST GREATEST")
    } else if is(word, "whole") {
        Some(b"whole RUNNABLE yes or no")
    } else if is(word, "period") {
        Some(b"period STIMULUS PERIOD")
    } else if is(word, "offset") {
        Some(b"offset STIMULUS OFFSET")
    } else if is(word, "jitter") {
        Some(b"jitter STIMULUS JITTER")
    } else if is(word, "distances") {
        Some(b"distances STIMULUS LEAST GREATEST")
    } else if is(word, "burst") {
        Some(b"burst STIMULUS PERIOD COUNT DISTANCE")
    } else if is(word, "deadline") {
        Some(b"deadline TASK DEADLINE")
    } else if is(word, "swap") {
        Some(b"swap TASK TASK")
    } else if is(word, "move") {
        Some(b"move TASK CORE PRIORITY")
    } else if is(word, "access") {
        Some(b"access TASK KIND")
    } else if is(word, "task") {
        Some(
            b"task NAME CORE STIMULUS PRIORITY KIND DEADLINE and 1 to 256 times RUNNABLE LEAST GREATEST READS WRITES",
        )
    } else if is(word, "drop-task") {
        Some(b"drop-task TASK")
    } else if is(word, "chain") {
        Some(b"chain NAME RUNNABLES LABELS")
    } else if is(word, "drop-chain") {
        Some(b"drop-chain CHAIN")
    } else if is(word, "report") {
        Some(b"report")
    } else {
        None
    }
}

/// Returns the shape of the lines of version 2 alone that begin with this word.
fn later_shape(word: &[u8]) -> Option<&'static [u8]>
    ensures { option_map (λ shape. shape.now) result ≡ later_shape word.now }
{
    if is(word, "priorities") {
        Some(b"priorities TASK N, 1 to 1024 times")
    } else if is(word, "requirement") {
        Some(b"requirement NAME CHAIN KIND MOST")
    } else if is(word, "drop-requirement") {
        Some(b"drop-requirement NAME")
    } else if is(word, "tighten") {
        Some(b"tighten")
    } else if is(word, "verify") {
        Some(b"verify")
    } else {
        None
    }
}

/// Returns the shape of the lines of a version that begin with this word.
pub(crate) fn shape(version: Version, word: &[u8]) -> Option<&'static [u8]>
    ensures { option_map (λ shape. shape.now) result ≡ shape_of version word.now }
{
    match version {
        Version::One => early_shape(word),
        Version::Two => match later_shape(word) {
            Some(shape) => Some(shape),
            None => early_shape(word),
        },
    }
}

/// Returns the words with which the lines of a version begin.
pub(crate) fn first_words(version: Version) -> &'static [u8]
    ensures { result.now ≡ words_text version }
{
    match version {
        Version::One =>
            b"range, whole, period, offset, jitter, distances, burst, deadline, swap, move, access, task, drop-task, chain, drop-chain, report",
        Version::Two =>
            b"range, whole, period, offset, jitter, distances, burst, deadline, swap, priorities, move, access, task, drop-task, chain, drop-chain, requirement, drop-requirement, tighten, verify, report",
    }
}
