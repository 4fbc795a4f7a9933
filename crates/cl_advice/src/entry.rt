//! The lines of the entry and of the runnable that contain a place.
ghost use Rattle.std.specs.Prelude.{◌≡◌, ◌++◌, Some, OnOk, option_map};
ghost use Rattle.toml.specs.{Data.string, View.{view, table_view}};
ghost use Rattle.cl_advice.specs.Entry.{name_or_dash, table_name, numbered_words, entry_line, runnable_line};

use crate::sites::{entry_in, runnable_around};
use cl_model::{Key, Name, Place};
use cl_text::Text;
use cl_time::NoMemory;
use toml::{Table, Value};

/// Appends a word if it is a name, and else `-`.
fn put_name(text: &mut Text, word: &[u8]) -> Result<(), NoMemory>
    ensures { OnOk result (text.new ≡ text.old ++ name_or_dash (Some (string word.now))) }
{
    match Name::read(word) {
        Some(_) => text.put(word),
        None => text.put(b"-"),
    }
}

/// Appends a value if it is a string that is a name, and else `-`.
fn put_name_or_dash(text: &mut Text, value: Option<&Value>) -> Result<(), NoMemory>
    ensures { OnOk result
        (text.new ≡ text.old ++ name_or_dash (option_map (λ value. view value.now) value.entry)) }
{
    match value {
        Some(Value::String(word)) => put_name(text, word.as_bytes()),
        _ => text.put(b"-"),
    }
}

/// Appends the name of a table, or `-` where it has none.
fn put_table_name(text: &mut Text, value: Option<&Value>) -> Result<(), NoMemory>
    ensures { OnOk result
        (text.new ≡ text.old ++ table_name (option_map (λ value. view value.now) value.entry)) }
{
    match value {
        Some(value) => put_name_or_dash(text, value.get(Key::Name.word())),
        None => text.put(b"-"),
    }
}

/// Appends the rest of the line of a table: its name, and its number counted from 1.
fn put_numbered(text: &mut Text, value: Option<&Value>, number: u32) -> Result<(), NoMemory>
    ensures { OnOk result
        (text.new ≡ text.old ++ numbered_words (option_map (λ value. view value.now) value.entry) number) }
{
    text.put(b" ")?;
    put_table_name(text, value)?;
    text.put(b" ")?;
    text.put_number(u64::from(number) + 1)?;
    text.put(b"\n")
}

/// Appends the line of the entry of a section that contains a place, if there is one.
pub(crate) fn put_entry(text: &mut Text, table: &Table, place: Place) -> Result<(), NoMemory>
    ensures { OnOk result (text.new ≡ text.old ++ entry_line (table_view table.now) place) }
{
    match place.item {
        Some(number) => {
            text.put(b"entry ")?;
            text.put(place.part.word().as_bytes())?;
            put_numbered(text, entry_in(table, place), number)
        }
        None => Ok(()),
    }
}

/// Appends the line of the runnable that contains a place, if there is one.
pub(crate) fn put_runnable(text: &mut Text, table: &Table, place: Place) -> Result<(), NoMemory>
    ensures { OnOk result (text.new ≡ text.old ++ runnable_line (table_view table.now) place) }
{
    match place.sub {
        Some(number) => {
            text.put(b"runnable")?;
            put_numbered(text, runnable_around(table, place), number)
        }
        None => Ok(()),
    }
}
