//! The fields of a table: the values at its keys. M5 refuses a table without a key that it must
//! have.
ghost use Rattle.toml.specs.View.{table_view};
ghost use Rattle.cl_model.specs.{declared.{task.AccessKind.TheVariants.Explicit, chain.{LengthKind.TheVariants.Reaction, RequirementKind.TheVariants.Length}}, Reading.{Checks.{a_name, a_number, a_boolean, a_word, required, optional, field_checks}, Meanings.{text_at, number_at}}};
ghost use Rattle.cl_model.specs.{Reading.{Meanings.{number_or, number_if, is_set, word_at}, Tables.{access_words, requirement_kind_words}}, Answers.Answers};
ghost use Rattle.cl_read.specs.Inner.Fields.{AreFieldsFound};

use crate::keys::Fields;
use crate::values;
use cl_model::{AccessKind, Code, Key, ModelFault, Name, Place, RequirementKind};

pub(crate) fn name(place: Place, fields: &Fields<'_>, key: Key) -> Result<Name, ModelFault>
    requires { AreFieldsFound fields.now }
    ensures { let ms = table_view fields.now.table.now in
        Answers result (field_checks place ms (required key a_name)) (text_at key ms) }
{
    let place = place.at_key(key);
    match fields.value_at(key) {
        Some(value) => values::name(place, value),
        None => Err(ModelFault::refused(Code::M5, place)),
    }
}

pub(crate) fn number(
    place: Place,
    fields: &Fields<'_>,
    key: Key,
    low: u64,
    high: u64,
) -> Result<u64, ModelFault>
    requires { AreFieldsFound fields.now }
    ensures { let ms = table_view fields.now.table.now in
        Answers result (field_checks place ms (required key (a_number low high))) (number_at key ms) }
{
    let place = place.at_key(key);
    match fields.value_at(key) {
        Some(value) => values::number(place, low, high, value),
        None => Err(ModelFault::refused(Code::M5, place)),
    }
}

/// Reads the number at a key, at most `high`, or returns 0 where the key is absent.
pub(crate) fn number_or_zero(
    place: Place,
    fields: &Fields<'_>,
    key: Key,
    high: u64,
) -> Result<u64, ModelFault>
    requires { AreFieldsFound fields.now }
    ensures { let ms = table_view fields.now.table.now in
        Answers result (field_checks place ms (optional key (a_number 0 high))) (number_or 0 key ms) }
{
    match fields.value_at(key) {
        Some(value) => values::number(place.at_key(key), 0, high, value),
        None => Ok(0),
    }
}

/// Reads the number at a key, from `low` to `high`, or returns `None` where the key is absent.
pub(crate) fn number_if(
    place: Place,
    fields: &Fields<'_>,
    key: Key,
    low: u64,
    high: u64,
) -> Result<Option<u64>, ModelFault>
    requires { AreFieldsFound fields.now }
    ensures { let ms = table_view fields.now.table.now in
        Answers result (field_checks place ms (optional key (a_number low high))) (number_if key ms) }
{
    match fields.value_at(key) {
        Some(value) => Ok(Some(values::number(place.at_key(key), low, high, value)?)),
        None => Ok(None),
    }
}

/// Reads the boolean at a key, or returns `false` where the key is absent.
pub(crate) fn is_set(place: Place, fields: &Fields<'_>, key: Key) -> Result<bool, ModelFault>
    requires { AreFieldsFound fields.now }
    ensures { let ms = table_view fields.now.table.now in
        Answers result (field_checks place ms (optional key a_boolean)) (is_set key ms) }
{
    match fields.value_at(key) {
        Some(value) => values::boolean(place.at_key(key), value),
        None => Ok(false),
    }
}

pub(crate) fn access(place: Place, fields: &Fields<'_>, key: Key) -> Result<AccessKind, ModelFault>
    requires { AreFieldsFound fields.now }
    ensures { let ms = table_view fields.now.table.now in
        Answers result
        (field_checks place ms (required key (a_word access_words)))
        (word_at access_words Explicit key ms) }
{
    let place = place.at_key(key);
    match fields.value_at(key) {
        Some(value) => values::access(place, value),
        None => Err(ModelFault::refused(Code::M5, place)),
    }
}

/// Reads the kind of a requirement of a file of this version.
pub(crate) fn requirement_kind(
    version: u64,
    place: Place,
    fields: &Fields<'_>,
    key: Key,
) -> Result<RequirementKind, ModelFault>
    requires { AreFieldsFound fields.now }
    ensures { let ms = table_view fields.now.table.now in
        Answers result
        (field_checks place ms (required key (a_word (requirement_kind_words version))))
        (word_at (requirement_kind_words version) (Length Reaction) key ms) }
{
    let place = place.at_key(key);
    match fields.value_at(key) {
        Some(value) => values::requirement_kind(version, place, value),
        None => Err(ModelFault::refused(Code::M5, place)),
    }
}
