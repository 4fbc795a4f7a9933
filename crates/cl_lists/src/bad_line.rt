//! What is said of a line of a list of edits that can't be read.
ghost use Rattle.std.specs.Prelude.{◌≡◌, ◌++◌, codes, option_map, OnOk};
ghost use Rattle.cl_lists.specs.BadLines.{written_words, is_written_word, is_written_line, shape_or_words, wanted_words, ends_of_lines, bad_line_text};

use crate::found::put_found_line;
use crate::lines::{count_words, ends_with_return, first_word, is_unended, line_of, said_above};
use crate::shapes::{first_words, is, shape};
use cl_edit::{MOST_EDITS, Version};
use cl_text::Text;
use cl_time::NoMemory;

/// Whether a word is a line for which something is written.
fn is_written_word(word: &[u8]) -> bool
    ensures { result ≡ is_written_word word.now }
{
    is(word, "report") || is(word, "tighten") || is(word, "verify")
}

/// Whether a line of a version is one for which something is written.
fn is_written_line(version: Version, line: &[u8]) -> bool
    ensures { result ≡ is_written_line version line.now }
{
    match version {
        Version::One => is(line, "report"),
        Version::Two => count_words(line) == 1 && is_written_word(first_word(line)),
    }
}

/// Returns the words of the lines for which something is written.
fn written_words(version: Version) -> &'static [u8]
    ensures { result.now ≡ written_words version }
{
    match version {
        Version::One => b"report",
        Version::Two => b"report, tighten, verify",
    }
}

/// Appends the shape of a line, or the words with which lines begin.
fn put_shape(text: &mut Text, version: Version, shape: Option<&[u8]>) -> Result<(), NoMemory>
    ensures { OnOk result
        (text.new ≡ text.old ++ shape_or_words version (option_map (λ shape. shape.now) shape.entry)) }
{
    match shape {
        Some(shape) => {
            text.put(b"wanted ")?;
            text.put(shape)
        }
        None => {
            text.put(b"wanted one of ")?;
            text.put(first_words(version))
        }
    }
}

/// Appends how many lines there may be for which something is written.
fn put_written(text: &mut Text, version: Version) -> Result<(), NoMemory>
    ensures { OnOk result
        (text.new ≡ text.old ++ (codes "wanted at most 64 lines " ++ written_words version)) }
{
    text.put(b"wanted at most 64 lines ")?;
    text.put(written_words(version))?;
    Ok(())
}

/// Appends what is wanted in place of a line.
fn put_wanted(text: &mut Text, version: Version, list: &[u8], number: usize) -> Result<(), NoMemory>
    ensures { OnOk result (text.new ≡ text.old ++ wanted_words version list.now number) }
{
    let line = line_of(list, number);
    if number == 1 {
        text.put(b"wanted chainlat edits 1")
    } else if said_above(version, list, number) == MOST_EDITS + 1 {
        text.put(b"wanted at most 4096 edits")
    } else if is_unended(version, list, number) {
        text.put(b"mend end the last line with LF")
    } else if is_written_line(version, line) {
        put_written(text, version)
    } else {
        put_shape(text, version, shape(version, first_word(line)))
    }
}

/// Appends what to write where a line of version 1 ends with a carriage return.
fn put_ends(text: &mut Text, version: Version, line: &[u8]) -> Result<(), NoMemory>
    ensures { OnOk result (text.new ≡ text.old ++ ends_of_lines version line.now) }
{
    match version {
        Version::One => {
            if ends_with_return(line) {
                text.put(b"mend write line ends as LF alone, or chainlat edits 2 in line 1\n")
            } else {
                Ok(())
            }
        }
        Version::Two => Ok(()),
    }
}

/// Appends what is said of the line of this number, counted from 1, of a list of edits of this
/// version, where it can't be read: what stands there, what is wanted, and how lines end.
///
/// Fails with `NoMemory` where there is no memory for the text. Then the text ends with a prefix of
/// what is said, possibly empty.
pub fn put_bad_line(
    text: &mut Text,
    version: Version,
    list: &[u8],
    number: usize,
) -> Result<(), NoMemory>
    ensures { OnOk result (text.new ≡ text.old ++ bad_line_text version list.now number) }
{
    put_found_line(text, version, list, number)?;
    put_wanted(text, version, list, number)?;
    text.put(b"\n")?;
    put_ends(text, version, line_of(list, number))?;
    Ok(())
}
