//! The place that a refusal is about, in the text of a document.
ghost use Rattle.std.specs.Prelude.{◌≡◌, ◌≤◌, length, true, is_ok, IfOk};
ghost use Rattle.toml_parser.specs.{Lexical.is_bare, Strings.key};
ghost use Rattle.cl_place.specs.Places.{BeginsItem, Begins, StandsApart, IsPlaceIn};

use crate::mark::mark_length;
use crate::steps::steps_to;
use crate::walk::walk_to;
use cl_model::Place;
use cl_time::NoMemory;
use std::alloc::Global;
use toml_parser::text::first;
use toml_parser::{ParseError, dotted_key, quoted, starts_string, unquoted};

/// Whether something could be read.
fn is_read<T: Drop>(read: Result<T, ParseError>) -> Result<bool, NoMemory>
    ensures { IfOk result (λ yes. yes ≡ is_ok read) }
{
    match read {
        Ok(_) => Ok(true),
        Err(ParseError::OutOfMemory) => Err(NoMemory),
        Err(_) => Ok(false),
    }
}

/// Whether a text begins with an inline table, a string, a number, a date or a word.
fn begins_item(alloc: Global, text: &str) -> Result<bool, NoMemory>
    ensures { IfOk result (λ yes. yes ≡ true → BeginsItem text.now) }
{
    if first(text) == b'{' {
        Ok(true)
    } else if starts_string(text) {
        is_read(quoted(alloc, text))
    } else {
        is_read(unquoted(alloc, text))
    }
}

/// Whether a text begins with a header, an array, a key or an item.
fn begins(alloc: Global, text: &str) -> Result<bool, NoMemory>
    ensures { IfOk result (λ yes. yes ≡ true → Begins text.now) }
{
    if first(text) == b'[' || is_read(dotted_key(alloc, text))? {
        Ok(true)
    } else {
        begins_item(alloc, text)
    }
}

/// Whether a byte may stand in a bare key.
fn is_bare(byte: u8) -> bool
    ensures { result ≡ is_bare byte }
{
    byte.is_ascii_alphanumeric() || byte == b'-' || byte == b'_'
}

/// Whether no byte of a bare key, a number or a word stands before an offset.
fn stands_apart(document: &[u8], at: usize) -> bool
    requires { at ≤ length document.now }
    ensures { result ≡ true → StandsApart document.now at }
{
    at == 0 || !is_bare(document[at - 1])
}

/// Whether something begins at an offset.
fn is_place(alloc: Global, document: &str, at: usize) -> Result<bool, NoMemory>
    ensures { IfOk result (λ yes. yes ≡ true → IsPlaceIn document.now at) }
{
    if document.is_char_boundary(at) && stands_apart(document.as_bytes(), at) {
        begins(alloc, &document[at..])
    } else {
        Ok(false)
    }
}

/// Returns the offset of the front, behind a byte order mark.
fn front_of(document: &str) -> usize
    ensures { IsPlaceIn document.now result }
{
    mark_length(document.as_bytes())
}

/// Returns the offset in bytes of a place in the text of a document, where `key` is the key that it
/// is about: that of the key or of the item, else of the header or the table of the entry in which
/// it is absent, else of the front. What the walk finds is looked at again.
///
/// Fails with `NoMemory` where there is no memory for the walk.
pub fn place_of(
    alloc: Global,
    document: &str,
    place: Place,
    key: Option<&str>,
) -> Result<usize, NoMemory>
    ensures { IfOk result (IsPlaceIn document.now) }
{
    let front = front_of(document);
    let steps = steps_to(alloc, place, key)?;
    let at = walk_to(alloc, document, front, &steps)?;
    if is_place(alloc, document, at)? {
        Ok(at)
    } else {
        Ok(front)
    }
}
