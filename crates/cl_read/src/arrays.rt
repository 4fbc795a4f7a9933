//! Arrays of a document, and what they may hold.
ghost use Rattle.std.specs.Prelude.{◌≡◌, ℕ, ◌≤◌, List as Items, [], map, option_map, length};
ghost use Rattle.toml.specs.{Data.Data, View.view};
ghost use Rattle.cl_model.specs.{declared.{place.Place.Place as Spot, refusal.Refusal.Refusal}, Reading.{Checks.{an_array, found_or}, Meanings.list_of}, Refusals.each_from, Answers.Answers};

use cl_model::{Code, List, ModelFault, Place};
use std::alloc::Global;
use toml::Value;

/// A type that the members of an array of a document may have.
pub(crate) trait Member: Drop {
    /// The checks of a member at its place, by the version of the file.
    ghost checks: { ℕ → Spot → Data → Items Refusal };

    /// What a member means where nothing is refused, by the version of the file.
    ghost meaning: { ℕ → Data → Self };

    /// The place of a member, by its number and the place of its array.
    ghost place_in: { ℕ → Spot → Spot };

    /// Returns the place of member `number` of an array.
    fn place_in(array: Place, number: u32) -> Place
        ensures { result ≡ place_in number array };

    /// Reads a member, or finds its first refusal.
    fn read(alloc: Global, version: u64, place: Place, value: &Value) -> Result<Self, ModelFault>
        ensures { let d = view value.now in
            Answers result (checks version place d) (meaning version d) };
}

/// Reads the members of an array, numbered from 0.
fn members<T: Member>(
    alloc: Global,
    version: u64,
    place: Place,
    values: &[Value],
) -> Result<List<T>, ModelFault>
    requires { length values.now ≤ u32.MAX }
    ensures { let ds = map view values.now in
        Answers result (each_from 0 (λ n. T.checks version (T.place_in n place)) ds) (map (T.meaning version) ds) }
{
    let mut members = List::with_room(alloc, values.len())?;
    for (i, value) in values.iter().enumerate() {
        let member = T::read(alloc, version, T::place_in(place, i as u32), value)?;
        members.push(member)?;
    }
    Ok(members)
}

/// Reads an array of at most `limit` members. M6 refuses what isn't an array, and M10 a longer one.
pub(crate) fn array<T: Member>(
    alloc: Global,
    version: u64,
    place: Place,
    limit: usize,
    value: &Value,
) -> Result<List<T>, ModelFault>
    requires { limit ≤ u32.MAX }
    ensures { let d = view value.now in
        Answers result (an_array limit T.place_in (T.checks version) place d) (map (T.meaning version) (list_of d)) }
{
    match value {
        Value::Array(values) => {
            if values.len() > limit {
                return Err(ModelFault::refused(Code::M10, place));
            }
            members(alloc, version, place, values.as_slice())
        }
        _ => Err(ModelFault::refused(Code::M6, place)),
    }
}

/// Reads an array, or makes an empty list where it is absent.
pub(crate) fn array_or_none<T: Member>(
    alloc: Global,
    version: u64,
    place: Place,
    limit: usize,
    found: Option<&Value>,
) -> Result<List<T>, ModelFault>
    requires { limit ≤ u32.MAX }
    ensures { let value = option_map (λ value. view value.now) found.entry in
        Answers result
        (found_or [] (an_array limit T.place_in (T.checks version) place) value)
        (found_or [] (λ d. map (T.meaning version) (list_of d)) value) }
{
    match found {
        Some(value) => array(alloc, version, place, limit, value),
        None => Ok(List::new(alloc)),
    }
}
