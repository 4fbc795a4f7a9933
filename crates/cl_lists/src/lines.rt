//! Lines of a list of edits, by their numbers, and their words.
ghost use Rattle.std.specs.Prelude.{◌≡◌, ◌-◌, length, count_by, take, option_map};
ghost use Rattle.std.specs.List.{find, slice_get, slice_split};
ghost use Rattle.cl_edit.specs.Said.{lines, without_return, is_blank, has_bytes, words_of, says};
ghost use Rattle.cl_lists.specs.BadLines.{line_of, without_end, leading_word, said_above, ends_with_return, is_unended};

use cl_edit::Version;

fn is_blank(byte: u8) -> bool
    ensures { result ≡ is_blank byte }
{
    byte == b' ' || byte == b'\t'
}

fn without_return(line: &[u8]) -> &[u8]
    ensures { result.now ≡ without_return line.now }
{
    line.strip_suffix(b"\r".as_slice()).unwrap_or(line)
}

/// Returns what stands in a line: in version 2 a carriage return at its end is none of it.
pub(crate) fn without_end(version: Version, line: &[u8]) -> &[u8]
    ensures { result.now ≡ without_end version line.now }
{
    match version {
        Version::One => line,
        Version::Two => without_return(line),
    }
}

/// Whether a line ends with a carriage return.
pub(crate) fn ends_with_return(line: &[u8]) -> bool
    ensures { result ≡ ends_with_return line.now }
{
    match line.last() {
        Some(byte) => *byte == b'\r',
        None => false,
    }
}

/// Finds the line at an index.
fn line_at(list: &[u8], index: usize) -> Option<&[u8]>
    ensures { option_map (λ line. line.now) result ≡ slice_get (lines list.now) index }
{
    list.split(|byte| *byte == b'\n').nth(index)
}

/// Returns the line of a number, counted from 1.
pub(crate) fn line_of(list: &[u8], number: usize) -> &[u8]
    ensures { result.now ≡ line_of list.now number }
{
    line_at(list, number.saturating_sub(1)).unwrap_or(b"")
}

/// Counts the lines.
fn count_lines(list: &[u8]) -> usize
    ensures { result ≡ length (lines list.now) }
{
    list.split(|byte| *byte == b'\n').count()
}

/// Whether a word has bytes.
fn has_bytes(word: &[u8]) -> bool
    ensures { result ≡ has_bytes word.now }
{
    !word.is_empty()
}

/// Finds the first word of a line.
fn find_word(line: &[u8]) -> Option<&[u8]>
    ensures { option_map (λ word. word.now) result ≡ find has_bytes (slice_split is_blank line.now) }
{
    line.split(|byte| is_blank(*byte))
        .find(|word| has_bytes(*word))
}

/// Returns the first word of a line, or nothing.
pub(crate) fn first_word(line: &[u8]) -> &[u8]
    ensures { result.now ≡ leading_word line.now }
{
    find_word(without_return(line)).unwrap_or(b"")
}

/// Counts the words of a line.
fn words_in(line: &[u8]) -> usize
    ensures { result ≡ length (words_of line.now) }
{
    line.split(|byte| is_blank(*byte))
        .filter(|word| has_bytes(*word))
        .count()
}

/// Counts the words of a line, whose end is left out.
pub(crate) fn count_words(line: &[u8]) -> usize
    ensures { result ≡ length (words_of (without_return line.now)) }
{
    words_in(without_return(line))
}

/// Whether a line with this first word says something: it has words, and is no comment.
fn says(word: &[u8]) -> bool
    ensures { result ≡ says word.now }
{
    word.first().is_some_and(|byte| *byte != b'#')
}

/// Counts the lines above a line that say something.
fn spoken_above(list: &[u8], number: usize) -> usize
    ensures { result ≡ count_by (λ line. says (leading_word line)) (take (number - 1) (lines list.now)) }
{
    list.split(|byte| *byte == b'\n')
        .take(number.saturating_sub(1))
        .filter(|line| says(first_word(line)))
        .count()
}

/// Counts the lines above a line that say something in a version, the title among them.
pub(crate) fn said_above(version: Version, list: &[u8], number: usize) -> usize
    ensures { result ≡ said_above version list.now number }
{
    match version {
        Version::One => number.saturating_sub(1),
        Version::Two => spoken_above(list, number),
    }
}

/// Whether a line is the last one of a list of version 1, which has no end.
pub(crate) fn is_unended(version: Version, list: &[u8], number: usize) -> bool
    ensures { result ≡ is_unended version list.now number }
{
    match version {
        Version::One => number == count_lines(list),
        Version::Two => false,
    }
}
