//! What to mend in a refused model file.
ghost use Rattle.std.specs.Prelude.{◌≡◌, ◌≤◌, ◌++◌, length, OnOk, IfSome};
ghost use Rattle.std.specs.Option.{option_copied};
ghost use Rattle.toml.specs.{Errors.IsWithin, Parse.parse_document, View.table_view};
ghost use Rattle.cl_model.specs.Ranges.{IsInRange};
ghost use Rattle.cl_advice.specs.Advice.{advice_text, AddsUnread, AddsAdvised, AddsOf, AddsAdvice};

use crate::entry::{put_entry, put_runnable};
use crate::found::{put_found, put_key};
use crate::keys::refused_key;
use crate::known::put_known_line;
use crate::measured::put_measured;
use crate::mend::put_mend;
use crate::position::put_position;
use crate::unread::put_unread;
use crate::wanted::put_wanted;
use crate::with::put_with_lines;
use cl_model::{Refusal, SystemModel};
use cl_place::place_of;
use cl_text::Text;
use cl_time::NoMemory;
use std::alloc::Global;
use std::str;
use toml::Table;
use toml::de::Error;

/// Appends the advice on a refused model file of these bytes: the place in the file, the entry and
/// the runnable that the refusal is about, the key, what was found there, what is wanted, which
/// names there are, what it clashes with, and what to write, each on a line of its own where there
/// is something to say. `model` is the model that the bytes describe, where they are read as one
/// and it isn't valid. Of bytes that are no document, the advice says where reading stops, what to
/// write, and what is wrong there.
///
/// Fails with `NoMemory` where there is no memory for the document, for the way to the place or for
/// the text. Then the text ends with a prefix of the advice, possibly empty.
pub fn put_advice(
    text: &mut Text,
    alloc: Global,
    bytes: &[u8],
    model: Option<&SystemModel>,
    refusal: Refusal,
) -> Result<(), NoMemory>
    requires { IfSome (option_copied model) IsInRange }
    ensures { OnOk result
        (AddsAdvice bytes.now (option_copied model.entry) refusal text.old text.new) }
{
    match str::from_utf8(bytes) {
        Ok(document) => put_of_text(text, alloc, document, model, refusal),
        Err(error) => put_no_document(text, bytes, error.valid_up_to(), "not UTF-8"),
    }
}

/// Appends the advice on a document of this text.
fn put_of_text(
    text: &mut Text,
    alloc: Global,
    document: &str,
    model: Option<&SystemModel>,
    refusal: Refusal,
) -> Result<(), NoMemory>
    requires { IfSome (option_copied model) IsInRange }
    ensures { OnOk result
        (AddsOf document.now (parse_document document.now) (option_copied model.entry) refusal text.old text.new) }
{
    match toml::table_from_str(alloc, document) {
        Ok(table) => put_of_document(text, alloc, document, &table, model, refusal),
        Err(error) => {
            if error.is_memory() {
                Err(NoMemory)
            } else {
                put_of_error(text, document, error)
            }
        }
    }
}

/// Appends the advice on a document of this text and of these members.
fn put_of_document(
    text: &mut Text,
    alloc: Global,
    document: &str,
    table: &Table,
    model: Option<&SystemModel>,
    refusal: Refusal,
) -> Result<(), NoMemory>
    requires { IfSome (option_copied model) IsInRange }
    ensures { OnOk result
        (AddsAdvised document.now (table_view table.now) (option_copied model.entry) refusal text.old text.new) }
{
    let place = place_of(alloc, document, refusal.place, refused_key(table, refusal))?;
    put_position(text, document.as_bytes(), place)?;
    put_of_table(text, table, model, refusal)?;
    Ok(())
}

/// Appends what the parser says of a text that is no document.
fn put_of_error(text: &mut Text, document: &str, error: Error) -> Result<(), NoMemory>
    requires { IsWithin document.now error }
    ensures { OnOk result (AddsUnread document.now text.old text.new) }
{
    let start = match error.span() {
        Some(span) => span.start,
        None => 0,
    };
    put_no_document(text, document.as_bytes(), start, error.message())
}

/// Appends the advice on bytes that are no document, of which reading stops at `start`.
fn put_no_document(
    text: &mut Text,
    bytes: &[u8],
    start: usize,
    message: &str,
) -> Result<(), NoMemory>
    requires { start ≤ length bytes.now }
    ensures { OnOk result (AddsUnread bytes.now text.old text.new) }
{
    put_position(text, bytes, start)?;
    put_unread(text, bytes, message)?;
    Ok(())
}

/// Appends the lines on a document behind that of the place.
fn put_of_table(
    text: &mut Text,
    table: &Table,
    model: Option<&SystemModel>,
    refusal: Refusal,
) -> Result<(), NoMemory>
    requires { IfSome (option_copied model) IsInRange }
    ensures { OnOk result
        (text.new ≡ text.old ++ advice_text (table_view table.now) (option_copied model.entry) refusal) }
{
    put_entry(text, table, refusal.place)?;
    put_runnable(text, table, refusal.place)?;
    put_key(text, table, refusal)?;
    put_found(text, table, model, refusal)?;
    put_wanted(text, table, refusal)?;
    put_measured(text, model, refusal)?;
    put_known_line(text, model, refusal)?;
    put_with_lines(text, model, refusal)?;
    put_mend(text, table, model, refusal)?;
    Ok(())
}
