//! The tables of a document, one reader for each.
ghost use Rattle.std.specs.Prelude.{◌≤◌};
ghost use Rattle.toml.specs.View.{table_view};
ghost use Rattle.cl_model.specs.{declared.limits.TheConstants.MOST_RUNNABLES, Place.{at_item, at_sub, at_spot}, Reading.{Checks.{a_name, a_table_of, fields_checks, field_checks, optional, names}, Meanings.{text_in, table_of, names_at, tables_at}, Tables.{core_fields, core_meaning}}};
ghost use Rattle.cl_model.specs.{Reading.Tables.{label_fields, label_meaning, runnable_fields, runnables, runnable_meaning, task_fields, task_meaning, chain_fields, chain_meaning, requirement_fields, requirement_meaning}, Answers.Answers};
ghost use Rattle.cl_model.specs.declared.place.Key.TheVariants as key;
ghost use Rattle.cl_read.specs.Inner.Fields.{AreFieldsFound};

use crate::arrays::{Member, array_or_none};
use crate::keys::Fields;
use crate::values::table_in;
use crate::{fields, values};
use cl_model::{
    ChainDef, Code, CoreDef, Key, LabelDef, List, MOST_ACCESSES, MOST_HOPS, MOST_PRIORITY,
    MOST_REQUIRED, MOST_RUNNABLES, MOST_STEPS, MOST_TICKS, ModelFault, Name, Place, RequirementDef,
    RunnableDef, TaskDef,
};
use std::alloc::Global;
use toml::{Table, Value};

impl Member for Name {
    ghost checks = { λ version. a_name };

    ghost meaning = { λ version. text_in };

    ghost place_in = { at_spot };

    fn place_in(array: Place, number: u32) -> Place {
        array.at_spot(number)
    }

    fn read(
        _alloc: Global,
        _version: u64,
        place: Place,
        value: &Value,
    ) -> Result<Name, ModelFault> {
        values::name(place, value)
    }
}

impl Member for CoreDef {
    ghost checks = { λ version. a_table_of core_fields };

    ghost meaning = { λ version entry. core_meaning (table_of entry) };

    ghost place_in = { at_item };

    fn place_in(section: Place, number: u32) -> Place {
        section.at_item(number)
    }

    fn read(
        _alloc: Global,
        _version: u64,
        place: Place,
        value: &Value,
    ) -> Result<CoreDef, ModelFault> {
        core(place, table_in(place, value)?)
    }
}

impl Member for LabelDef {
    ghost checks = { λ version. a_table_of label_fields };

    ghost meaning = { λ version entry. label_meaning (table_of entry) };

    ghost place_in = { at_item };

    fn place_in(section: Place, number: u32) -> Place {
        section.at_item(number)
    }

    fn read(
        _alloc: Global,
        _version: u64,
        place: Place,
        value: &Value,
    ) -> Result<LabelDef, ModelFault> {
        label(place, table_in(place, value)?)
    }
}

impl Member for RunnableDef {
    ghost checks = { λ version. a_table_of runnable_fields };

    ghost meaning = { λ version entry. runnable_meaning (table_of entry) };

    ghost place_in = { at_sub };

    fn place_in(section: Place, number: u32) -> Place {
        section.at_sub(number)
    }

    fn read(
        alloc: Global,
        version: u64,
        place: Place,
        value: &Value,
    ) -> Result<RunnableDef, ModelFault> {
        runnable(alloc, version, place, table_in(place, value)?)
    }
}

impl Member for TaskDef {
    ghost checks = { λ version. a_table_of task_fields };

    ghost meaning = { λ version entry. task_meaning (table_of entry) };

    ghost place_in = { at_item };

    fn place_in(section: Place, number: u32) -> Place {
        section.at_item(number)
    }

    fn read(
        alloc: Global,
        version: u64,
        place: Place,
        value: &Value,
    ) -> Result<TaskDef, ModelFault> {
        task(alloc, version, place, table_in(place, value)?)
    }
}

impl Member for ChainDef {
    ghost checks = { λ version. a_table_of chain_fields };

    ghost meaning = { λ version entry. chain_meaning (table_of entry) };

    ghost place_in = { at_item };

    fn place_in(section: Place, number: u32) -> Place {
        section.at_item(number)
    }

    fn read(
        alloc: Global,
        version: u64,
        place: Place,
        value: &Value,
    ) -> Result<ChainDef, ModelFault> {
        chain(alloc, version, place, table_in(place, value)?)
    }
}

impl Member for RequirementDef {
    ghost checks = { λ version. a_table_of (requirement_fields version) };

    ghost meaning = { λ version entry. requirement_meaning version (table_of entry) };

    ghost place_in = { at_item };

    fn place_in(section: Place, number: u32) -> Place {
        section.at_item(number)
    }

    fn read(
        _alloc: Global,
        version: u64,
        place: Place,
        value: &Value,
    ) -> Result<RequirementDef, ModelFault> {
        requirement(version, place, table_in(place, value)?)
    }
}

fn core(place: Place, table: &Table) -> Result<CoreDef, ModelFault>
    ensures { let ms = table_view table.now in
        Answers result (fields_checks core_fields place ms) (core_meaning ms) }
{
    let keys = [Key::Name];
    let found = Fields::of_only(place, table, &keys)?;
    Ok(CoreDef {
        name: fields::name(place, &found, Key::Name)?,
    })
}

fn label(place: Place, table: &Table) -> Result<LabelDef, ModelFault>
    ensures { let ms = table_view table.now in
        Answers result (fields_checks label_fields place ms) (label_meaning ms) }
{
    let keys = [Key::Name];
    let found = Fields::of_only(place, table, &keys)?;
    Ok(LabelDef {
        name: fields::name(place, &found, Key::Name)?,
    })
}

/// Reads the array of at most `limit` names at a key, empty where the key is absent.
fn names(
    alloc: Global,
    version: u64,
    place: Place,
    found: &Fields<'_>,
    key: Key,
    limit: usize,
) -> Result<List<Name>, ModelFault>
    requires limit { limit ≤ u32.MAX }
    requires found { AreFieldsFound found.now }
    ensures { let ms = table_view found.now.table.now in
        Answers result (field_checks place ms (optional key (names limit))) (names_at key ms) }
{
    array_or_none(
        alloc,
        version,
        place.at_key(key),
        limit,
        found.value_at(key),
    )
}

#[tactic(auto, using(cl_model::proofs::FirstRefusals::faults), unfolding(cl_model::specs::Reading::Tables::runnable_meaning))]
fn runnable(
    alloc: Global,
    version: u64,
    place: Place,
    table: &Table,
) -> Result<RunnableDef, ModelFault>
    ensures { let ms = table_view table.now in
        Answers result (fields_checks runnable_fields place ms) (runnable_meaning ms) }
{
    let keys = [
        Key::Name,
        Key::Least,
        Key::Greatest,
        Key::Whole,
        Key::Reads,
        Key::Writes,
    ];
    let found = Fields::of_only(place, table, &keys)?;
    Ok(RunnableDef {
        name: fields::name(place, &found, Key::Name)?,
        least: fields::number(place, &found, Key::Least, 1, MOST_TICKS)?,
        greatest: fields::number(place, &found, Key::Greatest, 1, MOST_TICKS)?,
        whole: fields::is_set(place, &found, Key::Whole)?,
        reads: names(alloc, version, place, &found, Key::Reads, MOST_ACCESSES)?,
        writes: names(alloc, version, place, &found, Key::Writes, MOST_ACCESSES)?,
    })
}

/// Reads the runnables of a task, none where the key is absent.
fn runnables(
    alloc: Global,
    version: u64,
    place: Place,
    found: &Fields<'_>,
) -> Result<List<RunnableDef>, ModelFault>
    requires { AreFieldsFound found.now }
    ensures { let ms = table_view found.now.table.now in
        Answers result
        (field_checks place ms (optional key.Runnable runnables))
        (tables_at runnable_meaning key.Runnable ms) }
{
    let place = place.at_key(Key::Runnable);
    array_or_none(
        alloc,
        version,
        place,
        MOST_RUNNABLES,
        found.value_at(Key::Runnable),
    )
}

#[tactic(auto, using(cl_model::proofs::FirstRefusals::faults), unfolding(cl_model::specs::Reading::Tables::task_meaning))]
fn task(alloc: Global, version: u64, place: Place, table: &Table) -> Result<TaskDef, ModelFault>
    ensures { let ms = table_view table.now in
        Answers result (fields_checks task_fields place ms) (task_meaning ms) }
{
    let keys = [
        Key::Name,
        Key::Core,
        Key::Stimulus,
        Key::Priority,
        Key::Access,
        Key::Deadline,
        Key::Runnable,
    ];
    let found = Fields::of_only(place, table, &keys)?;
    Ok(TaskDef {
        name: fields::name(place, &found, Key::Name)?,
        core: fields::name(place, &found, Key::Core)?,
        stimulus: fields::name(place, &found, Key::Stimulus)?,
        priority: fields::number(place, &found, Key::Priority, 0, MOST_PRIORITY)?,
        access: fields::access(place, &found, Key::Access)?,
        deadline: fields::number_if(place, &found, Key::Deadline, 1, MOST_TICKS)?,
        runnables: runnables(alloc, version, place, &found)?,
    })
}

#[tactic(auto, using(cl_model::proofs::FirstRefusals::faults), unfolding(cl_model::specs::Reading::Tables::chain_meaning))]
fn chain(alloc: Global, version: u64, place: Place, table: &Table) -> Result<ChainDef, ModelFault>
    ensures { let ms = table_view table.now in
        Answers result (fields_checks chain_fields place ms) (chain_meaning ms) }
{
    let keys = [Key::Name, Key::Runnables, Key::Labels];
    let found = Fields::of_only(place, table, &keys)?;
    Ok(ChainDef {
        name: fields::name(place, &found, Key::Name)?,
        runnables: names(alloc, version, place, &found, Key::Runnables, MOST_STEPS)?,
        labels: names(alloc, version, place, &found, Key::Labels, MOST_HOPS)?,
    })
}

#[tactic(auto, using(cl_model::proofs::FirstRefusals::faults), unfolding(cl_model::specs::Reading::Tables::requirement_meaning))]
fn requirement(version: u64, place: Place, table: &Table) -> Result<RequirementDef, ModelFault>
    ensures { let ms = table_view table.now in
        Answers result (fields_checks (requirement_fields version) place ms) (requirement_meaning version ms) }
{
    let keys = [Key::Name, Key::Chain, Key::Kind, Key::Most];
    let found = Fields::of_only(place, table, &keys)?;
    Ok(RequirementDef {
        name: fields::name(place, &found, Key::Name)?,
        chain: fields::name(place, &found, Key::Chain)?,
        kind: fields::requirement_kind(version, place, &found, Key::Kind)?,
        most: fields::number(place, &found, Key::Most, 0, MOST_REQUIRED)?,
    })
}
