//! Lines of a trace, by their numbers, and their words.
ghost use Rattle.std.specs.Prelude.{◌≡◌, length, option_map};
ghost use Rattle.std.specs.List.{slice_get};
ghost use Rattle.std.specs.Str.{bytes_eq};
ghost use Rattle.cl_traces.specs.TraceLines.{trace_lines, trace_line, is_fed, is_at_end, line_words, line_word, printed_number};

use cl_text::read_decimal;

/// Whether a word is this one.
pub(crate) fn is(word: &[u8], name: &str) -> bool
    ensures { result ≡ bytes_eq word.now name.now }
{
    word == name.as_bytes()
}

/// Finds the line at an index.
fn line_at(trace: &[u8], index: usize) -> Option<&[u8]>
    ensures { option_map (λ line. line.now) result ≡ slice_get (trace_lines trace.now) index }
{
    trace.split(|byte| *byte == b'\n').nth(index)
}

/// Returns the line of a number, counted from 1, without its line feed: empty past the last one.
pub(crate) fn trace_line(trace: &[u8], number: usize) -> &[u8]
    ensures { result.now ≡ trace_line trace.now number }
{
    line_at(trace, number.saturating_sub(1)).unwrap_or(b"")
}

/// Counts the lines.
fn count_lines(trace: &[u8]) -> usize
    ensures { result ≡ length (trace_lines trace.now) }
{
    trace.split(|byte| *byte == b'\n').count()
}

/// Whether a line feed stands behind the line of a number.
pub(crate) fn is_fed(trace: &[u8], number: usize) -> bool
    ensures { result ≡ is_fed trace.now number }
{
    number < count_lines(trace)
}

/// Whether the trace ends where the line of a number begins.
pub(crate) fn is_at_end(trace: &[u8], number: usize) -> bool
    ensures { result ≡ is_at_end trace.now number }
{
    count_lines(trace) <= number && trace_line(trace, number).len() == 0
}

/// Finds the word of a line at a place.
fn find_word(line: &[u8], place: usize) -> Option<&[u8]>
    ensures { option_map (λ word. word.now) result ≡ slice_get (line_words line.now) place }
{
    line.split(|byte| *byte == b' ').nth(place)
}

/// Returns the word of a line at a place, counted from 0: empty past the last one.
pub(crate) fn line_word(line: &[u8], place: usize) -> &[u8]
    ensures { result.now ≡ line_word line.now place }
{
    find_word(line, place).unwrap_or(b"")
}

/// Counts the words of a line.
pub(crate) fn count_words(line: &[u8]) -> usize
    ensures { result ≡ length (line_words line.now) }
{
    line.split(|byte| *byte == b' ').count()
}

/// Reads a word as a number as it is printed. Returns `None` exactly where it is none below 2^64.
pub(crate) fn printed_number(word: &[u8]) -> Option<u64>
    ensures { result ≡ printed_number word.now }
{
    read_decimal(word, u64::MAX)
}
