//! Single values of a document: tables, names, numbers, booleans and words.
ghost use Rattle.std.specs.Prelude.{◌≡◌, unwrap_or, IfOk, IfErr, List};
ghost use Rattle.toml.specs.{Data.{Members, table}, View.{view, table_view}};
ghost use Rattle.cl_model.specs.{declared.{place.Place.Place as Spot, refusal.Refusal.Refusal, task.AccessKind.TheVariants.Explicit, chain.{LengthKind.TheVariants.Reaction, RequirementKind.TheVariants.Length}}, Reading.Checks.{a_table, a_name, a_number, a_boolean, a_word, meaning_of}};
ghost use Rattle.cl_model.specs.{Reading.{Meanings.{text_in, number_in, boolean_of}, Tables.{access_words, requirement_kind_words}}, Answers.{Answers, IsFaultOf}};

use cl_model::{AccessKind, Code, ModelFault, Name, Place, RequirementKind};
use toml::{Table, Value};

/// Returns the table that a value is. M6 refuses any other value, whatever the checks of the table
/// are.
pub(crate) fn table_in(place: Place, value: &Value) -> Result<&Table, ModelFault>
    ensures found { IfOk result (λ found. view value.now ≡ table (table_view found.now)) }
    ensures refused { IfErr result
        (λ fault. (asked : Spot → Members → List Refusal)
        → IsFaultOf (a_table asked place (view value.now)) fault) }
{
    match value {
        Value::Table(table) => Ok(table),
        _ => Err(ModelFault::refused(Code::M6, place)),
    }
}

pub(crate) fn name(place: Place, value: &Value) -> Result<Name, ModelFault>
    ensures { let d = view value.now in
        Answers result (a_name place d) (text_in d) }
{
    match value {
        Value::String(word) => match Name::of_text(word.as_str()) {
            Some(name) => Ok(name),
            None => Err(ModelFault::refused(Code::M7, place)),
        },
        _ => Err(ModelFault::refused(Code::M6, place)),
    }
}

/// Reads a whole number from `low` to `high`.
pub(crate) fn number(place: Place, low: u64, high: u64, value: &Value) -> Result<u64, ModelFault>
    ensures { let d = view value.now in
        Answers result (a_number low high place d) (number_in d) }
{
    match value {
        Value::Integer(number) => match u64::try_from(*number) {
            Ok(number) if low <= number && number <= high => Ok(number),
            _ => Err(ModelFault::refused(Code::M8, place)),
        },
        _ => Err(ModelFault::refused(Code::M6, place)),
    }
}

pub(crate) fn boolean(place: Place, value: &Value) -> Result<bool, ModelFault>
    ensures { let d = view value.now in
        Answers result (a_boolean place d) (boolean_of d) }
{
    match value {
        Value::Boolean(boolean) => Ok(*boolean),
        _ => Err(ModelFault::refused(Code::M6, place)),
    }
}

pub(crate) fn access(place: Place, value: &Value) -> Result<AccessKind, ModelFault>
    ensures { let d = view value.now in
        Answers result
        (a_word access_words place d)
        (unwrap_or (meaning_of access_words (text_in d)) Explicit) }
{
    match value {
        Value::String(word) => match AccessKind::of_word(word.as_bytes()) {
            Some(access) => Ok(access),
            None => Err(ModelFault::refused(Code::M9, place)),
        },
        _ => Err(ModelFault::refused(Code::M6, place)),
    }
}

/// Reads the kind of a requirement of a file of this version.
pub(crate) fn requirement_kind(
    version: u64,
    place: Place,
    value: &Value,
) -> Result<RequirementKind, ModelFault>
    ensures { let d = view value.now in
        Answers result
        (a_word (requirement_kind_words version) place d)
        (unwrap_or (meaning_of (requirement_kind_words version) (text_in d)) (Length Reaction)) }
{
    match value {
        Value::String(word) => match RequirementKind::of_word(version, word.as_bytes()) {
            Some(kind) => Ok(kind),
            None => Err(ModelFault::refused(Code::M9, place)),
        },
        _ => Err(ModelFault::refused(Code::M6, place)),
    }
}
