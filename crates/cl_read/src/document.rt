//! The whole document.
ghost use Rattle.std.specs.Prelude.{◌≡◌, ◌≤◌, [], map, IfOk};
ghost use Rattle.toml.specs.{Parse.parse_document, View.table_view};
ghost use Rattle.cl_model.specs.declared.place.Key.TheVariants as key;
ghost use Rattle.cl_model.specs.{declared.refusal.Code.TheVariants.{M1, M2, M3}, Place.{section_place, top, at_key}, Refusals.{unless, in_order}, Reading.{Checks.{an_array, found_or, value_at}, Meanings.list_of, is_format, is_version, version_in, section_checks, sections, model_checks}};
ghost use Rattle.cl_model.specs.{Reading.{model_meaning, document_of, model_of}, AreNamed.AreNamed, Ranges.IsInRange, Answers.{Answers, Gives}};
ghost use Rattle.cl_read.specs.Inner.{Documents.IsDocument, Fields.AreFieldsFound};

use crate::arrays::{Member, array_or_none};
use crate::keys::{Fields, value_at};
use cl_model::{
    Code, Key, List, MOST_CHAINS, MOST_CORES, MOST_LABELS, MOST_REQUIREMENTS, MOST_STIMULI,
    MOST_TASKS, ModelFault, Part, Place, SystemModel,
};
use std::alloc::Global;
use std::str;
use toml::{Table, Value};

/// Reads a model file: the model that its bytes describe, or the first refusal, of M1 to M10. Fails
/// with `NoMemory` where memory runs out. A model that is read is in range, and each name in it is
/// of the name grammar.
pub fn read_model(alloc: Global, text: &[u8]) -> Result<SystemModel, ModelFault>
    ensures reads { Gives result (model_of text.now) }
    ensures in_range { IfOk result IsInRange }
    ensures named { IfOk result AreNamed }
{
    let table = document(alloc, text)?;
    model(alloc, &table)
}

/// Reads the document that the bytes write. M1 refuses bytes that aren't UTF-8 or write none.
fn document(alloc: Global, bytes: &[u8]) -> Result<Table, ModelFault>
    ensures { IsDocument result (document_of bytes.now) }
{
    match str::from_utf8(bytes) {
        Ok(text) => parsed(alloc, text),
        Err(_) => Err(ModelFault::refused(Code::M1, Place::top())),
    }
}

/// Reads the document that a text writes. M1 refuses a text that writes none.
fn parsed(alloc: Global, text: &str) -> Result<Table, ModelFault>
    ensures { IsDocument result (parse_document text.now) }
{
    match toml::table_from_str(alloc, text) {
        Ok(table) => Ok(table),
        Err(error) => {
            if error.is_memory() {
                Err(ModelFault::NoMemory)
            } else {
                Err(ModelFault::refused(Code::M1, Place::top()))
            }
        }
    }
}

#[tactic(auto, using(cl_model::proofs::FirstRefusals::faults), unfolding(cl_model::specs::Reading::model_checks))]
fn model(alloc: Global, table: &Table) -> Result<SystemModel, ModelFault>
    ensures { let ms = table_view table.now in
        Answers result (model_checks ms) (model_meaning ms) }
{
    format(table)?;
    let version = version(table)?;
    let keys = [
        Key::Format,
        Key::Version,
        Key::Core,
        Key::Stimulus,
        Key::Label,
        Key::Task,
        Key::Chain,
        Key::Requirement,
    ];
    let found = Fields::of_only(Place::top(), table, &keys)?;
    all_sections(alloc, version, &found)
}

/// Reads all sections, once the keys are checked.
#[tactic(auto, using(cl_model::proofs::FirstRefusals::faults), unfolding(cl_model::specs::Reading::model_meaning))]
fn all_sections(alloc: Global, version: u64, found: &Fields<'_>) -> Result<SystemModel, ModelFault>
    requires found { AreFieldsFound found.now }
    requires version { version ≡ version_in (table_view found.now.table.now) }
    ensures { let ms = table_view found.now.table.now in
        Answers result (in_order (map (section_checks version ms) sections)) (model_meaning ms) }
{
    Ok(SystemModel {
        cores: section(alloc, version, found, Key::Core, Part::Core, MOST_CORES)?,
        stimuli: section(
            alloc,
            version,
            found,
            Key::Stimulus,
            Part::Stimulus,
            MOST_STIMULI,
        )?,
        labels: section(alloc, version, found, Key::Label, Part::Label, MOST_LABELS)?,
        tasks: section(alloc, version, found, Key::Task, Part::Task, MOST_TASKS)?,
        chains: section(alloc, version, found, Key::Chain, Part::Chain, MOST_CHAINS)?,
        requirements: section(
            alloc,
            version,
            found,
            Key::Requirement,
            Part::Requirement,
            MOST_REQUIREMENTS,
        )?,
    })
}

/// Checks M2: the format is `chainlat`.
fn format(table: &Table) -> Result<(), ModelFault>
    ensures { let value = value_at key.Format (table_view table.now) in
        Answers result (unless (is_format value) M2 (at_key key.Format top)) tt }
{
    match value_at(table, Key::Format) {
        Some(Value::String(word)) if word.as_str() == "chainlat" => Ok(()),
        _ => Err(ModelFault::refused(Code::M2, Place::top().at_key(Key::Format))),
    }
}

/// Checks M3 and returns the version of the file, from 1 to 3.
fn version(table: &Table) -> Result<u64, ModelFault>
    ensures { let ms = table_view table.now in
        Answers result (unless (is_version (value_at key.Version ms)) M3 (at_key key.Version top)) (version_in ms) }
{
    match value_at(table, Key::Version) {
        Some(Value::Integer(1)) => Ok(1),
        Some(Value::Integer(2)) => Ok(2),
        Some(Value::Integer(3)) => Ok(3),
        _ => Err(ModelFault::refused(Code::M3, Place::top().at_key(Key::Version))),
    }
}

/// Reads the entries of a section, none where it is absent.
fn section<T: Member>(
    alloc: Global,
    version: u64,
    found: &Fields<'_>,
    key: Key,
    part: Part,
    limit: usize,
) -> Result<List<T>, ModelFault>
    requires limit { limit ≤ u32.MAX }
    requires found { AreFieldsFound found.now }
    ensures { let value = value_at key (table_view found.now.table.now) in
        Answers result
        (found_or [] (an_array limit T.place_in (T.checks version) (section_place part)) value)
        (found_or [] (λ d. map (T.meaning version) (list_of d)) value) }
{
    array_or_none(
        alloc,
        version,
        part.section_place(),
        limit,
        found.value_at(key),
    )
}
