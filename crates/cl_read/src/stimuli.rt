//! Stimuli. The keys of one depend on its kind, and the kinds on the version of the file.
ghost use Rattle.std.specs.Prelude.{Some, [], ◌∷◌, unwrap_or};
ghost use Rattle.toml.specs.{Data.string, View.table_view};
ghost use Rattle.cl_model.specs.declared.place.Key.TheVariants as key;
ghost use Rattle.cl_model.specs.{Place.{at_key, at_item}, Refusals.in_order, Reading.{Checks.{a_word, a_table, required, field_checks, meaning_of}, Meanings.{table_of, word_if, word_at}, Tables.{stimulus_forms, periodic_form, sporadic_form, burst_form, form_checks}}};
ghost use Rattle.cl_model.specs.{Reading.Tables.{stimulus_entry_checks, stimulus_meaning}, Answers.Answers};

use crate::arrays::Member;
use crate::fields;
use crate::keys::{Fields, value_at};
use crate::values::table_in;
use cl_model::{
    Code, Key, LEAST_JOBS_OF_BURST, MOST_JOBS_OF_BURST, MOST_TICKS, ModelFault, Place, StimulusDef,
    StimulusKind,
};
use std::alloc::Global;
use toml::{Table, Value};

impl Member for StimulusDef {
    ghost checks = { λ version. a_table (stimulus_entry_checks version) };

    ghost meaning = { λ version entry. stimulus_meaning version (table_of entry) };

    ghost place_in = { at_item };

    fn place_in(section: Place, number: u32) -> Place {
        section.at_item(number)
    }

    fn read(
        _alloc: Global,
        version: u64,
        place: Place,
        value: &Value,
    ) -> Result<StimulusDef, ModelFault> {
        stimulus(version, place, table_in(place, value)?)
    }
}

#[tactic(auto, using(cl_model::proofs::FirstRefusals::faults), unfolding(cl_model::specs::Reading::Tables::stimulus_entry_checks, cl_model::specs::Reading::Tables::stimulus_meaning))]
fn stimulus(version: u64, place: Place, table: &Table) -> Result<StimulusDef, ModelFault>
    ensures { let ms = table_view table.now in
        Answers result (stimulus_entry_checks version place ms) (stimulus_meaning version ms) }
{
    Ok(StimulusDef {
        name: fields::name(place, &Fields::of_any(table), Key::Name)?,
        kind: kind(version, place, table)?,
    })
}

/// Reads the kind of a stimulus and the keys of that kind.
fn kind(version: u64, place: Place, table: &Table) -> Result<StimulusKind, ModelFault>
    ensures { let ms = table_view table.now in
        let forms = stimulus_forms version in
        Answers result
        (in_order (field_checks place ms (required key.Kind (a_word forms)) ∷ form_checks place ms (word_if forms key.Kind ms) ∷ []))
        ((word_at forms periodic_form key.Kind ms).meaning ms) }
{
    let kind = place.at_key(Key::Kind);
    match value_at(table, Key::Kind) {
        Some(Value::String(word)) => of_kind(version, place, table, word.as_str()),
        Some(_) => Err(ModelFault::refused(Code::M6, kind)),
        None => Err(ModelFault::refused(Code::M5, kind)),
    }
}

/// Reads the keys of the kind that a word stands for. M9 refuses a word that stands for none.
fn of_kind(
    version: u64,
    place: Place,
    table: &Table,
    word: &str,
) -> Result<StimulusKind, ModelFault>
    ensures { let ms = table_view table.now in
        let forms = stimulus_forms version in
        Answers result
        (in_order (a_word forms (at_key key.Kind place) (string word.now) ∷ form_checks place ms (meaning_of forms word.now) ∷ []))
        ((unwrap_or (meaning_of forms word.now) periodic_form).meaning ms) }
{
    match word {
        "periodic" => periodic(place, table),
        "sporadic" => sporadic(place, table),
        "burst" if version >= 2 => burst(place, table),
        _ => Err(ModelFault::refused(Code::M9, place.at_key(Key::Kind))),
    }
}

#[tactic(auto, using(cl_model::proofs::FirstRefusals::faults))]
fn periodic(place: Place, table: &Table) -> Result<StimulusKind, ModelFault>
    ensures { let ms = table_view table.now in
        Answers result (form_checks place ms (Some periodic_form)) (periodic_form.meaning ms) }
{
    let keys = [Key::Name, Key::Kind, Key::Period, Key::Offset, Key::Jitter];
    let found = Fields::of_only(place, table, &keys)?;
    Ok(StimulusKind::Periodic {
        period: fields::number(place, &found, Key::Period, 1, MOST_TICKS)?,
        offset: fields::number_or_zero(place, &found, Key::Offset, MOST_TICKS)?,
        jitter: fields::number_or_zero(place, &found, Key::Jitter, MOST_TICKS)?,
    })
}

#[tactic(auto, using(cl_model::proofs::FirstRefusals::faults))]
fn sporadic(place: Place, table: &Table) -> Result<StimulusKind, ModelFault>
    ensures { let ms = table_view table.now in
        Answers result (form_checks place ms (Some sporadic_form)) (sporadic_form.meaning ms) }
{
    let keys = [Key::Name, Key::Kind, Key::Least, Key::Greatest];
    let found = Fields::of_only(place, table, &keys)?;
    Ok(StimulusKind::Sporadic {
        least: fields::number(place, &found, Key::Least, 1, MOST_TICKS)?,
        greatest: fields::number(place, &found, Key::Greatest, 1, MOST_TICKS)?,
    })
}

#[tactic(auto, using(cl_model::proofs::FirstRefusals::faults))]
fn burst(place: Place, table: &Table) -> Result<StimulusKind, ModelFault>
    ensures { let ms = table_view table.now in
        Answers result (form_checks place ms (Some burst_form)) (burst_form.meaning ms) }
{
    let keys = [
        Key::Name,
        Key::Kind,
        Key::Period,
        Key::Offset,
        Key::Count,
        Key::Distance,
    ];
    let found = Fields::of_only(place, table, &keys)?;
    Ok(StimulusKind::Burst {
        period: fields::number(place, &found, Key::Period, 1, MOST_TICKS)?,
        offset: fields::number_or_zero(place, &found, Key::Offset, MOST_TICKS)?,
        count: fields::number(
            place,
            &found,
            Key::Count,
            LEAST_JOBS_OF_BURST,
            MOST_JOBS_OF_BURST,
        )?,
        distance: fields::number(place, &found, Key::Distance, 1, MOST_TICKS)?,
    })
}
