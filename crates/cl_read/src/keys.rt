//! The keys of a table.
ghost use Rattle.std.specs.Prelude.{◌≡◌, ◌≤◌, length, option_map, position, slice_get, Some, IsTrue, IfOk, IfSome};
ghost use Rattle.toml.specs.View.{view, table_view};
ghost use Rattle.cl_model.specs.{declared.refusal.Code.TheVariants.M4, Refusals.unless, Reading.Checks.{value_at, has_only}, Answers.Passes};
ghost use Rattle.cl_read.specs.Inner.Fields.{is_word, are_apart, AreValuesAt, AreNone, AreFieldsFound, data_of, first_of};
ghost use Rattle.cl_read.specs.declared.keys.TheConstants as constants;

use cl_model::{Code, Key, ModelFault, Place};
use toml::{Table, Value};

/// The most keys that a table may have.
const MOST_KEYS: usize = 8;

/// Finds the value at a key, if the key is there.
pub(crate) fn value_at(table: &Table, key: Key) -> Option<&Value>
    ensures { option_map (λ value. view value.now) result ≡ value_at key (table_view table.now) }
{
    table.get(key.word())
}

/// Finds the index of the key that a word spells among these keys.
fn place_of(keys: &[Key], word: &str) -> Option<usize>
    ensures { result ≡ position (is_word word.now) keys.now }
{
    keys.iter().position(|key| key.word() == word)
}

/// Finds the index of a key among these keys.
fn place_of_key(keys: &[Key], key: Key) -> Option<usize>
    ensures { IfSome result (λ place. slice_get keys.now place ≡ Some key) }
{
    for (place, known) in keys.iter().enumerate() {
        if *known == key {
            return Some(place);
        }
    }
    None
}

/// Returns the earlier value, if there is one, and else this one.
fn first_of<'a>(earlier: Option<&'a Value>, value: &'a Value) -> Option<&'a Value>
    ensures { data_of result ≡ first_of (data_of earlier.entry) (view value.now) }
{
    match earlier {
        Some(earlier) => Some(earlier),
        None => Some(value),
    }
}

/// Finds the values at these keys, in one pass over the table. Returns whether the table has no
/// other key; where it has one, some values may be missing.
fn find<'a>(keys: &[Key], table: &'a Table, values: &mut [Option<&'a Value>]) -> bool
    requires few { length keys.now ≤ length values.old }
    requires apart { IsTrue (are_apart keys.now) }
    requires none { AreNone values.old }
    ensures only { result ≡ has_only keys.now (table_view table.now) }
    ensures values { IsTrue result → AreValuesAt keys.now (table_view table.now) values.new }
{
    for (word, value) in table {
        match place_of(keys, word.as_str()) {
            Some(place) => values[place] = first_of(values[place], value),
            None => return false,
        }
    }
    true
}

/// The fields of a table. The values at some keys are found already.
#[derive(Clone, Copy)]
pub(crate) struct Fields<'a> {
    table: &'a Table,
    keys: &'a [Key],
    values: [Option<&'a Value>; MOST_KEYS],
}

impl<'a> Fields<'a> {
    /// Takes a table that may have any keys. No value is found yet.
    pub fn of_any(table: &'a Table) -> Fields<'a>
        ensures table { result.table.now ≡ table.now }
        ensures found { AreFieldsFound result }
    {
        Fields {
            table,
            keys: &[],
            values: [None; MOST_KEYS],
        }
    }

    /// Finds the values at these keys. M4 refuses a table that has another key.
    pub fn of_only(
        place: Place,
        table: &'a Table,
        keys: &'a [Key],
    ) -> Result<Fields<'a>, ModelFault>
        requires few { length keys.now ≤ constants.MOST_KEYS }
        requires apart { IsTrue (are_apart keys.now) }
        ensures checked { Passes result
            (unless (has_only keys.now (table_view table.now)) M4 place) }
        ensures table { IfOk result (λ fields. fields.table.now ≡ table.now) }
        ensures found { IfOk result AreFieldsFound }
    {
        let mut values = [None; MOST_KEYS];
        if !find(keys, table, &mut values) {
            return Err(ModelFault::refused(Code::M4, place));
        }
        Ok(Fields {
            table,
            keys,
            values,
        })
    }

    /// Returns the value at a key, if the key is there. Only a key that isn't one of those found
    /// already is looked up now.
    pub fn value_at(&self, key: Key) -> Option<&'a Value>
        requires { AreFieldsFound self.now }
        ensures { data_of result ≡ value_at key (table_view self.now.table.now) }
    {
        let values = &self.values[..];
        match place_of_key(self.keys, key) {
            Some(place) => values[place],
            None => value_at(self.table, key),
        }
    }
}
