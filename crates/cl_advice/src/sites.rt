//! The values at places of a document.
ghost use Rattle.std.specs.Prelude.{◌≡◌, option_map};
ghost use Rattle.toml.specs.{View.{view, table_view}, Data.{get_member, at, get, as_table}};
ghost use Rattle.std.specs.Option.{option_and_then};
ghost use Rattle.cl_model.specs.Place.{key_text};
ghost use Rattle.cl_advice.specs.Sites.{section_in, entry_in, runnables_around, runnable_around, table_around, value_around, value_of_key, member_if, value_with, value_in};

use cl_model::{Key, Part, Place};
use toml::{Table, Value};

/// Finds the value at the key that is this word.
pub(crate) fn value_at<'a>(table: &'a Table, word: &str) -> Option<&'a Value>
    ensures { option_map (λ value. view value.now) result
        ≡ get_member word.now (table_view table.now) }
{
    table.get(word)
}

fn section_in(table: &Table, part: Part) -> Option<&Value>
    ensures { option_map (λ value. view value.now) result ≡ section_in (table_view table.now) part }
{
    value_at(table, part.word())
}

/// Finds the member of an array with this number.
fn member_at(value: &Value, number: u32) -> Option<&Value>
    ensures { option_map (λ found. view found.now) result ≡ at number (view value.now) }
{
    value.get(number as usize)
}

/// Finds the entry of a section that contains a place.
pub(crate) fn entry_in(table: &Table, place: Place) -> Option<&Value>
    ensures { option_map (λ value. view value.now) result ≡ entry_in (table_view table.now) place }
{
    match place.item {
        Some(number) => match section_in(table, place.part) {
            Some(section) => member_at(section, number),
            None => None,
        },
        None => None,
    }
}

/// Finds the runnables of the entry that contains a place.
fn runnables_around(table: &Table, place: Place) -> Option<&Value>
    ensures { option_map (λ value. view value.now) result
        ≡ runnables_around (table_view table.now) place }
{
    match entry_in(table, place) {
        Some(entry) => entry.get(Key::Runnable.word()),
        None => None,
    }
}

/// Finds the runnable of a task that contains a place.
pub(crate) fn runnable_around(table: &Table, place: Place) -> Option<&Value>
    ensures { option_map (λ value. view value.now) result
        ≡ runnable_around (table_view table.now) place }
{
    match place.sub {
        Some(number) => match runnables_around(table, place) {
            Some(runnables) => member_at(runnables, number),
            None => None,
        },
        None => None,
    }
}

/// Returns the table that a value is, if it is one.
fn table_of(value: Option<&Value>) -> Option<&Table>
    ensures { option_map (λ table. table_view table.now) result
        ≡ option_and_then as_table (option_map (λ value. view value.now) value.entry) }
{
    match value {
        Some(Value::Table(table)) => Some(table),
        _ => None,
    }
}

/// Finds the table that contains a place: a runnable, an entry, or the whole document.
pub(crate) fn table_around(table: &Table, place: Place) -> Option<&Table>
    ensures { option_map (λ found. table_view found.now) result
        ≡ table_around (table_view table.now) place }
{
    if place.sub.is_some() {
        table_of(runnable_around(table, place))
    } else if place.item.is_some() {
        table_of(entry_in(table, place))
    } else {
        Some(table)
    }
}

/// Finds the value at a place without a key: a runnable, an entry or a section.
fn value_around(table: &Table, place: Place) -> Option<&Value>
    ensures { option_map (λ value. view value.now) result
        ≡ value_around (table_view table.now) place }
{
    if place.sub.is_some() {
        runnable_around(table, place)
    } else if place.item.is_some() {
        entry_in(table, place)
    } else {
        section_in(table, place.part)
    }
}

/// Finds the value at a key of the table that contains a place.
fn value_of_key(table: &Table, place: Place, key: Key) -> Option<&Value>
    ensures { option_map (λ value. view value.now) result
        ≡ value_of_key (table_view table.now) place key }
{
    match table_around(table, place) {
        Some(around) => value_at(around, key.word()),
        None => None,
    }
}

/// Finds the member of an array with this number, or returns the value itself where there is no
/// number.
fn member_if(number: Option<u32>, value: Option<&Value>) -> Option<&Value>
    ensures { option_map (λ found. view found.now) result
        ≡ member_if number (option_map (λ value. view value.now) value.entry) }
{
    match number {
        Some(number) => match value {
            Some(value) => member_at(value, number),
            None => None,
        },
        None => value,
    }
}

/// Finds the value at a place.
pub(crate) fn value_in(table: &Table, place: Place) -> Option<&Value>
    ensures { option_map (λ value. view value.now) result ≡ value_in (table_view table.now) place }
{
    match place.key {
        Some(key) => member_if(place.spot, value_of_key(table, place, key)),
        None => value_around(table, place),
    }
}
