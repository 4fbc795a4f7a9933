//! The lines of the key that a refusal is about, and of the value there.
ghost use Rattle.std.specs.Prelude.{◌≡◌, ◌++◌, if◌then◌else◌, codes, decimal, option_map, OnOk, IfSome};
ghost use Rattle.std.specs.Option.{option_copied};
ghost use Rattle.std.specs.Fmt.{signed_decimal};
ghost use Rattle.toml.specs.View.{view, table_view};
ghost use Rattle.cl_model.specs.Ranges.{IsInRange};
ghost use Rattle.cl_advice.specs.{Keys.refused_value, Found.{value_text, shown_key_line, key_line, value_line, found_line}};

use crate::keys::{refused_key, refused_value};
use crate::measured::put_jitter_found;
use crate::shown::{put_quoted, put_shown};
use cl_model::{Code, Refusal, SystemModel};
use cl_text::Text;
use cl_time::NoMemory;
use itoa::Buffer;
use toml::{Table, Value};

/// Appends the line of a key, if there is one.
pub(crate) fn put_key_word(text: &mut Text, word: Option<&str>) -> Result<(), NoMemory>
    ensures { OnOk result
        (text.new ≡ text.old ++ shown_key_line (option_map (λ word. word.now) word.entry)) }
{
    match word {
        Some(word) => {
            text.put(b"key ")?;
            put_shown(text, word.as_bytes())?;
            text.put(b"\n")
        }
        None => Ok(()),
    }
}

/// Appends the line of the key that a refusal is about, if there is one.
pub(crate) fn put_key(text: &mut Text, table: &Table, refusal: Refusal) -> Result<(), NoMemory>
    ensures { OnOk result (text.new ≡ text.old ++ key_line (table_view table.now) refusal) }
{
    put_key_word(text, refused_key(table, refusal))
}

/// Appends a whole number.
fn put_integer(text: &mut Text, number: i64) -> Result<(), NoMemory>
    ensures { OnOk result (text.new ≡ text.old ++ signed_decimal number) }
{
    let mut buffer = Buffer::new();
    text.put(buffer.format(number).as_bytes())
}

/// Appends the length of an array.
fn put_array(text: &mut Text, length: usize) -> Result<(), NoMemory>
    ensures { OnOk result (text.new ≡ text.old ++ (codes "array of " ++ decimal length)) }
{
    text.put(b"array of ")?;
    text.put_number(length as u64)
}

/// Appends `true` or `false`.
fn put_boolean(text: &mut Text, boolean: bool) -> Result<(), NoMemory>
    ensures { OnOk result (text.new ≡ text.old ++ (if boolean then codes "true" else codes "false")) }
{
    if boolean {
        text.put(b"true")
    } else {
        text.put(b"false")
    }
}

/// Appends what is shown of a value of a document.
fn put_value(text: &mut Text, value: &Value) -> Result<(), NoMemory>
    ensures { OnOk result (text.new ≡ text.old ++ value_text (view value.now)) }
{
    match value {
        Value::String(word) => put_quoted(text, word.as_bytes()),
        Value::Integer(number) => put_integer(text, *number),
        Value::Float(_) => text.put(b"float"),
        Value::Boolean(boolean) => put_boolean(text, *boolean),
        Value::Datetime(_) => text.put(b"date"),
        Value::Array(values) => put_array(text, values.len()),
        Value::Table(_) => text.put(b"table"),
    }
}

/// Appends the line of the value at the place of a refusal, if there is one.
fn put_value_line(text: &mut Text, table: &Table, refusal: Refusal) -> Result<(), NoMemory>
    ensures { OnOk result
        (text.new ≡ text.old ++ value_line (refused_value (table_view table.now) refusal.place refusal.code)) }
{
    match refused_value(table, refusal) {
        Some(value) => {
            text.put(b"found ")?;
            put_value(text, value)?;
            text.put(b"\n")
        }
        None => Ok(()),
    }
}

/// Appends the line of the value that a refusal is about, if there is one.
pub(crate) fn put_found(
    text: &mut Text,
    table: &Table,
    model: Option<&SystemModel>,
    refusal: Refusal,
) -> Result<(), NoMemory>
    requires { IfSome (option_copied model) IsInRange }
    ensures { OnOk result
        (text.new ≡ text.old ++ found_line (table_view table.now) (option_copied model.entry) refusal) }
{
    match refusal.code {
        Code::M33 => put_jitter_found(text, model, refusal.place),
        _ => put_value_line(text, table, refusal),
    }
}
