//! The line of what is wanted where a model file is refused.
ghost use Rattle.std.specs.Prelude.{◌≡◌, ◌++◌, ◌∷◌, Some, map, flat_map, codes, OnOk};
ghost use Rattle.toml.specs.View.{table_view};
ghost use Rattle.cl_model.specs.{Place.key_text, declared.refusal.Code.TheVariants.M4};
ghost use Rattle.cl_advice.specs.declared.want.Want.TheVariants as want;
ghost use Rattle.cl_advice.specs.Wanted.{joined, one_of, range_text, want_text, limit_text, want_line, wanted_line};

use crate::keys::{known_keys, version_in};
use crate::sites::table_around;
use crate::want::Want;
use cl_model::{Code, Key, Place, Refusal};
use cl_text::Text;
use cl_time::NoMemory;
use toml::Table;

/// Appends a range of whole numbers.
fn put_range(text: &mut Text, low: u64, high: u64) -> Result<(), NoMemory>
    ensures { OnOk result (text.new ≡ text.old ++ range_text low high) }
{
    text.put(b"a whole number from ")?;
    text.put_number(low)?;
    text.put(b" to ")?;
    text.put_number(high)?;
    Ok(())
}

/// Returns the kinds of stimuli that files of this version have.
fn kinds(version: u64) -> &'static [u8]
    ensures { result.now ≡ want_text (want.Kind version) }
{
    if version >= 2 {
        b"one of periodic, sporadic, burst"
    } else {
        b"one of periodic, sporadic"
    }
}

/// Returns the kinds of requirements that files of this version have.
fn requirement_kinds(version: u64) -> &'static [u8]
    ensures { result.now ≡ want_text (want.RequirementKind version) }
{
    if version >= 3 {
        b"one of reaction, age, reduced, delay"
    } else {
        b"one of reaction, age, reduced"
    }
}

/// Appends what is wanted.
fn put_want(text: &mut Text, want: Want) -> Result<(), NoMemory>
    ensures { OnOk result (text.new ≡ text.old ++ want_text want) }
{
    match want {
        Want::Name => text.put(b"a name: 1 to 64 of letters, digits, _ . -"),
        Want::Number { low, high } => put_range(text, low, high),
        Want::Format => text.put(b"one of chainlat"),
        Want::Access => text.put(b"one of explicit, implicit, timed"),
        Want::Kind { version } => text.put(kinds(version)),
        Want::RequirementKind { version } => text.put(requirement_kinds(version)),
        Want::Boolean => text.put(b"true or false"),
        Want::Array { .. } => text.put(b"an array"),
        Want::Table => text.put(b"a table"),
    }
}

/// Appends the most entries that an array may have.
fn put_most(text: &mut Text, limit: usize) -> Result<(), NoMemory>
    ensures { OnOk result (text.new ≡ text.old ++ limit_text (want.Array limit)) }
{
    text.put(b"at most ")?;
    text.put_number(limit as u64)?;
    text.put(b" entries")
}

/// Appends the most entries of an array that is wanted, or anything else that is.
fn put_limit(text: &mut Text, want: Want) -> Result<(), NoMemory>
    ensures { OnOk result (text.new ≡ text.old ++ limit_text want) }
{
    match want {
        Want::Array { limit } => put_most(text, limit),
        _ => put_want(text, want),
    }
}

/// Appends a comma and a key.
fn put_other(text: &mut Text, key: Key) -> Result<(), NoMemory>
    ensures { OnOk result (text.new ≡ text.old ++ (codes ", " ++ key_text key)) }
{
    text.put(b", ")?;
    text.put(key.word().as_bytes())
}

/// Appends a comma and a key for each of these keys.
fn put_others(text: &mut Text, keys: &[Key]) -> Result<(), NoMemory>
    ensures { OnOk result (text.new ≡ text.old ++ flat_map (λ key. codes ", " ++ key_text key) keys.now) }
{
    for key in keys {
        put_other(text, *key)?;
    }
    Ok(())
}

/// Appends a first key and others, with commas between them.
fn put_joined(text: &mut Text, first: Key, others: &[Key]) -> Result<(), NoMemory>
    ensures { OnOk result
        (text.new ≡ text.old ++ joined (key_text first ∷ map key_text others.now)) }
{
    text.put(first.word().as_bytes())?;
    put_others(text, others)?;
    Ok(())
}

/// Appends keys, with commas between them.
fn put_keys(text: &mut Text, keys: &[Key]) -> Result<(), NoMemory>
    ensures { OnOk result (text.new ≡ text.old ++ joined (map key_text keys.now)) }
{
    match keys.split_first() {
        Some((first, others)) => put_joined(text, *first, others),
        None => Ok(()),
    }
}

/// Appends the line of the keys that a table may have.
fn put_keys_line(text: &mut Text, keys: &[Key]) -> Result<(), NoMemory>
    ensures { OnOk result
        (text.new ≡ text.old ++ want_line (Some (one_of (map key_text keys.now)))) }
{
    text.put(b"wanted one of ")?;
    put_keys(text, keys)?;
    text.put(b"\n")
}

/// Appends the line of the keys that the table around a place may have, if there is such a table.
fn put_known(text: &mut Text, table: &Table, place: Place) -> Result<(), NoMemory>
    ensures { OnOk result
        (text.new ≡ text.old ++ wanted_line (table_view table.now) (record { code = M4; place = place })) }
{
    match table_around(table, place) {
        Some(around) => put_keys_line(text, known_keys(version_in(table), place, around)),
        None => Ok(()),
    }
}

/// Appends the line of what is wanted.
fn put_want_line(text: &mut Text, want: Want) -> Result<(), NoMemory>
    ensures { OnOk result (text.new ≡ text.old ++ want_line (Some (want_text want))) }
{
    text.put(b"wanted ")?;
    put_want(text, want)?;
    text.put(b"\n")
}

/// Appends the line of the most entries of an array that is wanted.
pub(crate) fn put_limit_line(text: &mut Text, want: Want) -> Result<(), NoMemory>
    ensures { OnOk result (text.new ≡ text.old ++ want_line (Some (limit_text want))) }
{
    text.put(b"wanted ")?;
    put_limit(text, want)?;
    text.put(b"\n")
}

/// Appends the line of what is wanted where a file is refused, if there is something to say.
pub(crate) fn put_wanted(text: &mut Text, table: &Table, refusal: Refusal) -> Result<(), NoMemory>
    ensures { OnOk result (text.new ≡ text.old ++ wanted_line (table_view table.now) refusal) }
{
    let place = refusal.place;
    match refusal.code {
        Code::M4 => put_known(text, table, place),
        Code::M2 | Code::M3 | Code::M5 | Code::M6 | Code::M7 | Code::M8 | Code::M9 => {
            put_want_line(text, Want::at(version_in(table), place))
        }
        Code::M10 => put_limit_line(text, Want::at(version_in(table), place)),
        _ => Ok(()),
    }
}
