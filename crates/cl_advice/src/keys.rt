//! The keys of a table, and the first that the reader doesn't know.
ghost use Rattle.std.specs.Prelude.{◌≡◌, ◌∷◌, not, find, option_map, string_bytes};
ghost use Rattle.std.specs.BTreeMap.{keys as words_in};
ghost use Rattle.std.specs.Option.{option_copied};
ghost use Rattle.toml.specs.View.{view, table_view};
ghost use Rattle.cl_model.specs.declared.place.Key.TheVariants as key;
ghost use Rattle.cl_model.specs.declared.place.Part.TheVariants as part;
ghost use Rattle.cl_model.specs.{Place.key_text, Reading.{top_keys, version_in, Checks.{keys_of, meaning_of}, Tables.{stimulus_forms, task_fields, runnable_fields}}};
ghost use Rattle.cl_advice.specs.Keys.{form_keys, part_keys, known_keys, is_listed, unknown_among, unknown_key, unknown_value, refused_key, refused_value};

use crate::sites::{table_around, value_at, value_in};
use cl_model::{Code, Key, Part, Place, Refusal};
use toml::{Table, Value};

/// Returns the version of a document, 0 where it has none.
pub(crate) fn version_in(table: &Table) -> u64
    ensures { result ≡ version_in (table_view table.now) }
{
    match value_at(table, Key::Version.word()) {
        Some(Value::Integer(number)) => (*number).max(0) as u64,
        _ => 0,
    }
}

/// Returns the keys of a stimulus whose kind is this word: only `name` and `kind` where there is no
/// such kind.
fn kind_keys(version: u64, word: &str) -> &'static [Key]
    ensures { result.now ≡ key.Name ∷ key.Kind ∷ form_keys (meaning_of (stimulus_forms version) word.now) }
{
    match word {
        "periodic" => &[Key::Name, Key::Kind, Key::Period, Key::Offset, Key::Jitter],
        "sporadic" => &[Key::Name, Key::Kind, Key::Least, Key::Greatest],
        "burst" if version >= 2 => &[
            Key::Name,
            Key::Kind,
            Key::Period,
            Key::Offset,
            Key::Count,
            Key::Distance,
        ],
        _ => &[Key::Name, Key::Kind],
    }
}

/// Returns the keys that a stimulus may have, by its kind.
fn stimulus_keys(version: u64, table: &Table) -> &'static [Key]
    ensures { result.now ≡ part_keys version part.Stimulus (table_view table.now) }
{
    match value_at(table, Key::Kind.word()) {
        Some(Value::String(word)) => kind_keys(version, word.as_str()),
        _ => kind_keys(version, ""),
    }
}

/// Returns the keys that a task may have.
pub(crate) fn task_keys() -> &'static [Key]
    ensures { result.now ≡ keys_of task_fields }
{
    &[
        Key::Name,
        Key::Core,
        Key::Stimulus,
        Key::Priority,
        Key::Access,
        Key::Deadline,
        Key::Runnable,
    ]
}

/// Returns the keys that a runnable may have.
pub(crate) fn runnable_keys() -> &'static [Key]
    ensures { result.now ≡ keys_of runnable_fields }
{
    &[
        Key::Name,
        Key::Least,
        Key::Greatest,
        Key::Whole,
        Key::Reads,
        Key::Writes,
    ]
}

/// Returns the keys that the top level may have.
fn top_keys() -> &'static [Key]
    ensures { result.now ≡ top_keys }
{
    &[
        Key::Format,
        Key::Version,
        Key::Core,
        Key::Stimulus,
        Key::Label,
        Key::Task,
        Key::Chain,
        Key::Requirement,
    ]
}

/// Returns the keys that a table of a part may have.
fn part_keys(version: u64, part: Part, table: &Table) -> &'static [Key]
    ensures { result.now ≡ part_keys version part (table_view table.now) }
{
    match part {
        Part::Top => top_keys(),
        Part::Core | Part::Label => &[Key::Name],
        Part::Stimulus => stimulus_keys(version, table),
        Part::Task => task_keys(),
        Part::Chain => &[Key::Name, Key::Runnables, Key::Labels],
        Part::Requirement => &[Key::Name, Key::Chain, Key::Kind, Key::Most],
    }
}

/// Returns the keys that the table around a place may have.
pub(crate) fn known_keys(version: u64, place: Place, table: &Table) -> &'static [Key]
    ensures { result.now ≡ known_keys version place (table_view table.now) }
{
    if place.sub.is_some() {
        runnable_keys()
    } else {
        part_keys(version, place.part, table)
    }
}

/// Whether a word is one of the keys.
pub(crate) fn is_listed(keys: &[Key], word: &str) -> bool
    ensures { result ≡ is_listed keys.now word.now }
{
    keys.iter().any(|key| key.word() == word)
}

/// Finds the first key of a table that is none of these, as the table has it.
fn other_word<'a>(keys: &[Key], table: &'a Table) -> Option<&'a String>
    ensures { option_copied result
        ≡ find (λ word. not (is_listed keys.now (string_bytes word))) (words_in table.now) }
{
    table.keys().find(|word| !is_listed(keys, word.as_str()))
}

/// Finds the first key of a table that is none of these.
fn unknown_among<'a>(keys: &[Key], table: &'a Table) -> Option<&'a str>
    ensures { option_map (λ word. word.now) result ≡ unknown_among keys.now (table_view table.now) }
{
    match other_word(keys, table) {
        Some(word) => Some(word.as_str()),
        None => None,
    }
}

/// Finds the first key of `around`, the table around a place, that the reader doesn't know there.
fn unknown_in<'a>(version: u64, place: Place, around: &'a Table) -> Option<&'a str>
    ensures { let ms = table_view around.now in
        option_map (λ word. word.now) result ≡ unknown_among (known_keys version place ms) ms }
{
    unknown_among(known_keys(version, place, around), around)
}

/// Finds the first key of the table around a place that the reader doesn't know there.
pub(crate) fn unknown_key(table: &Table, place: Place) -> Option<&str>
    ensures { option_map (λ word. word.now) result ≡ unknown_key (table_view table.now) place }
{
    match table_around(table, place) {
        Some(around) => unknown_in(version_in(table), place, around),
        None => None,
    }
}

/// Finds the value at the first key of the table around a place that the reader doesn't know there.
fn unknown_value(table: &Table, place: Place) -> Option<&Value>
    ensures { option_map (λ value. view value.now) result
        ≡ unknown_value (table_view table.now) place }
{
    match table_around(table, place) {
        Some(around) => match unknown_in(version_in(table), place, around) {
            Some(word) => value_at(around, word),
            None => None,
        },
        None => None,
    }
}

/// Returns the word of a key, if there is one.
pub(crate) fn word_of(key: Option<Key>) -> Option<&'static str>
    ensures { option_map (λ word. word.now) result ≡ option_map key_text key }
{
    match key {
        Some(key) => Some(key.word()),
        None => None,
    }
}

/// Finds the key that a refusal is about: the unknown key for M4, and else the key of its place.
pub(crate) fn refused_key(table: &Table, refusal: Refusal) -> Option<&str>
    ensures { option_map (λ word. word.now) result
        ≡ refused_key (table_view table.now) refusal.place refusal.code }
{
    match refusal.code {
        Code::M4 => unknown_key(table, refusal.place),
        _ => word_of(refusal.place.key),
    }
}

/// Finds the value that a refusal is about: that of the unknown key for M4, and else the value at
/// its place.
pub(crate) fn refused_value(table: &Table, refusal: Refusal) -> Option<&Value>
    ensures { option_map (λ value. view value.now) result
        ≡ refused_value (table_view table.now) refusal.place refusal.code }
{
    match refusal.code {
        Code::M4 => unknown_value(table, refusal.place),
        _ => value_in(table, refusal.place),
    }
}
