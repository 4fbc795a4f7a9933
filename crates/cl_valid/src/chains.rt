//! The checks of chains and requirements.
ghost use Rattle.std.specs.Prelude.{◌≡◌, All, ℕ, List, ◌+◌, ◌<◌, ◌^◌, [], not, map, length, Some, IfOk, OnOk};
ghost use Rattle.std.specs.Option.{option_copied};
ghost use Rattle.cl_model.specs.{Answers.{Answers, Passes}, declared.chain.ChainDef.ChainDef, Named.{has_name, index_of, is_some_and, runnable_names, all_runnables, chain_names}, Ranges.{IsInRange, IsChainInRange}, Refusals.each, Validity.{lengths_check, chain_check, requirement_check}};
ghost use Rattle.cl_valid.specs.{Inner.{ChainsByTable.{AreNumbersOf, use_of_number, misses_use, known_step_check, number_hop_check, known_steps_check, use_hops_check, use_chain_check, known_chain_check}, Tables.{names_of, uses_of}}, declared.runnables.LabelUse.LabelUse};

use crate::names::Names;
use crate::places::{at_spot, entry_of};
use crate::runnables::LabelUse;
use cl_model::{
    ChainDef, Code, Key, ModelFault, Name, NameSet, Part, Place, RequirementDef, SystemModel,
    refuse_unless, refuse_when,
};
use std::alloc::Global;

/// Returns what step `k` of a chain reads and writes, where its steps are the runnables with these
/// numbers.
fn step_of<'a, 'b>(
    uses: &'a [LabelUse<'b>],
    numbers: &[usize],
    k: usize,
) -> Option<&'a LabelUse<'b>>
    ensures { option_copied result ≡ use_of_number uses.now numbers.now k }
{
    let number = numbers.get(k)?;
    uses.get(*number)
}

/// Whether a step is known but doesn't write a label.
fn misses_write(step: Option<&LabelUse<'_>>, label: &Name) -> bool
    ensures { result ≡ is_some_and (option_copied step.entry)
        (λ writer. not (has_name label.now writer.writes)) }
{
    match step {
        Some(writer) => !writer.writes.contains(label),
        None => false,
    }
}

/// Whether a step is known but doesn't read a label.
fn misses_read(step: Option<&LabelUse<'_>>, label: &Name) -> bool
    ensures { result ≡ is_some_and (option_copied step.entry)
        (λ reader. not (has_name label.now reader.reads)) }
{
    match step {
        Some(reader) => !reader.reads.contains(label),
        None => false,
    }
}

/// Whether a step is known but doesn't write a label, or the next one is known but doesn't read it.
fn misses_label(writer: Option<&LabelUse<'_>>, reader: Option<&LabelUse<'_>>, label: &Name) -> bool
    ensures { result ≡ misses_use (option_copied writer.entry) (option_copied reader.entry) label.now }
{
    misses_write(writer, label) || misses_read(reader, label)
}

/// Checks M44 for step `k` and returns the number of its runnable. `guess` is the number to look at
/// first.
fn step_number(
    runnables: &NameSet,
    place: Place,
    k: usize,
    name: &Name,
    guess: usize,
) -> Result<usize, ModelFault>
    requires { k < 2 ^ 32 }
    ensures checked { Passes result (known_step_check runnables.now place k name.now) }
    ensures number { IfOk result (λ number. index_of name.now runnables.now ≡ Some number) }
{
    match runnables.number_guessed(name, guess) {
        Some(number) => Ok(number),
        None => Err(ModelFault::refused(Code::M44, at_spot(place, k))),
    }
}

/// Checks M45 for label `k`: the writer, step `k`, writes it, and the reader, the next step, reads
/// it.
#[tactic(auto, unfolding(crate::specs::Inner::ChainsByTable::number_hop_check))]
fn check_hop(
    writer: Option<&LabelUse<'_>>,
    reader: Option<&LabelUse<'_>>,
    place: Place,
    k: usize,
    label: &Name,
) -> Result<(), ModelFault>
    requires { k < 2 ^ 32 }
    ensures { (uses : List LabelUse) (numbers : List ℕ)
        → option_copied writer.entry ≡ use_of_number uses numbers k
        → option_copied reader.entry ≡ use_of_number uses numbers (k + 1)
        → Answers result (number_hop_check uses numbers place k label.now) tt }
{
    let is_missed = misses_label(writer, reader, label);
    refuse_when(is_missed, Code::M45, at_spot(place, k))
}

/// Checks M44 and adds the number of the runnable of each step. It is first looked for right after
/// the one of the step before, where it mostly is.
fn add_numbers(
    numbers: &mut Vec<usize>,
    runnables: &NameSet,
    place: Place,
    steps: &[Name],
) -> Result<(), ModelFault>
    requires count { length steps.now < 2 ^ 32 }
    requires empty { numbers.old.items ≡ [] }
    ensures checked { Answers result (each (known_step_check runnables.now place) steps.now) tt }
    ensures numbers { OnOk result (AreNumbersOf runnables.now steps.now numbers.new.items) }
{
    let mut guess = 0;
    for (k, name) in steps.iter().enumerate() {
        let number = step_number(runnables, place, k, name, guess)?;
        numbers.push(number)?;
        guess = number.saturating_add(1);
    }
    Ok(())
}

/// Checks M45.
#[tactic(auto, using(cl_model::proofs::FirstRefusals::loop_faults))]
fn check_hops(
    uses: &[LabelUse<'_>],
    numbers: &[usize],
    place: Place,
    labels: &[Name],
) -> Result<(), ModelFault>
    requires { length labels.now < 2 ^ 32 }
    ensures { Answers result (each (number_hop_check uses.now numbers.now place) labels.now) tt }
{
    let mut writer = step_of(uses, numbers, 0);
    for (k, label) in labels.iter().enumerate() {
        let reader = step_of(uses, numbers, k + 1);
        check_hop(writer, reader, place, k, label)?;
        writer = reader;
    }
    Ok(())
}

fn check_lengths(i: usize, chain: &ChainDef) -> Result<(), ModelFault>
    requires item { i < 2 ^ 32 }
    requires chain { IsChainInRange chain.now }
    ensures { Answers result (lengths_check i chain.now) tt }
{
    let fits = chain.labels.len() + 1 == chain.runnables.len();
    let place = entry_of(Part::Chain, i).at_key(Key::Labels);
    refuse_unless(fits, Code::M43, place)
}

/// Checks M44 for chain `i` and returns the number of the runnable of each step.
fn step_numbers(
    alloc: Global,
    runnables: &NameSet,
    i: usize,
    chain: &ChainDef,
) -> Result<Vec<usize>, ModelFault>
    requires item { i < 2 ^ 32 }
    requires chain { IsChainInRange chain.now }
    ensures checked { Passes result (known_steps_check runnables.now i chain.now) }
    ensures numbers { IfOk result
        (λ numbers. AreNumbersOf runnables.now chain.now.runnables numbers.items) }
{
    let place = entry_of(Part::Chain, i).at_key(Key::Runnables);
    let mut numbers = Vec::with_capacity(alloc, chain.runnables.len())?;
    add_numbers(&mut numbers, runnables, place, chain.runnables.as_slice())?;
    Ok(numbers)
}

fn check_all_hops(
    uses: &[LabelUse<'_>],
    numbers: &[usize],
    i: usize,
    chain: &ChainDef,
) -> Result<(), ModelFault>
    requires item { i < 2 ^ 32 }
    requires chain { IsChainInRange chain.now }
    ensures { (runnables : List (List ℕ)) → AreNumbersOf runnables chain.now.runnables numbers.now
        → Answers result (use_hops_check runnables uses.now i chain.now) tt }
{
    let place = entry_of(Part::Chain, i).at_key(Key::Labels);
    check_hops(uses, numbers, place, chain.labels.as_slice())
}

/// Checks M43 to M45 for chain `i`.
#[tactic(auto, using(cl_model::proofs::FirstRefusals::faults), unfolding(crate::specs::Inner::ChainsByTable::use_chain_check))]
fn check_chain(
    alloc: Global,
    runnables: &NameSet,
    uses: &[LabelUse<'_>],
    i: usize,
    chain: &ChainDef,
) -> Result<(), ModelFault>
    requires item { i < 2 ^ 32 }
    requires chain { IsChainInRange chain.now }
    ensures { Answers result (use_chain_check runnables.now uses.now i chain.now) tt }
{
    check_lengths(i, chain)?;
    let numbers = step_numbers(alloc, runnables, i, chain)?;
    check_all_hops(uses, numbers.as_slice(), i, chain)?;
    Ok(())
}

/// Checks M43 to M45 for each of the chains.
#[tactic(auto, using(cl_model::proofs::FirstRefusals::loop_faults))]
fn check_all_chains(
    alloc: Global,
    runnables: &NameSet,
    uses: &[LabelUse<'_>],
    chains: &[ChainDef],
) -> Result<(), ModelFault>
    requires count { length chains.now < 2 ^ 32 }
    requires chains { All IsChainInRange chains.now }
    ensures { Answers result (each (use_chain_check runnables.now uses.now) chains.now) tt }
{
    for (i, chain) in chains.iter().enumerate() {
        check_chain(alloc, runnables, uses, i, chain)?;
    }
    Ok(())
}

/// Checks M43 to M45 for each chain. `uses` is what each runnable of the model reads and writes.
/// Fails with the first refusal, or with `NoMemory` where memory runs out.
pub fn check_chains(
    alloc: Global,
    model: &SystemModel,
    names: &Names,
    uses: &[LabelUse<'_>],
) -> Result<(), ModelFault>
    requires in_range { IsInRange model.now }
    requires names { names.now ≡ names_of model.now }
    requires uses { uses.now ≡ uses_of (all_runnables model.now.tasks) }
    ensures { Answers result (each (chain_check model.now) model.now.chains) tt }
{
    check_all_chains(alloc, &names.runnables, uses, model.chains.as_slice())
}

fn check_requirement(
    chains: &NameSet,
    i: usize,
    requirement: &RequirementDef,
) -> Result<(), ModelFault>
    requires { i < 2 ^ 32 }
    ensures { Answers result (known_chain_check chains.now i requirement.now) tt }
{
    let place = entry_of(Part::Requirement, i).at_key(Key::Chain);
    refuse_unless(chains.contains(&requirement.chain), Code::M46, place)
}

/// Checks M46 for each of the requirements.
#[tactic(auto, using(cl_model::proofs::FirstRefusals::loop_faults))]
fn check_all_requirements(
    chains: &NameSet,
    requirements: &[RequirementDef],
) -> Result<(), ModelFault>
    requires { length requirements.now < 2 ^ 32 }
    ensures { Answers result (each (known_chain_check chains.now) requirements.now) tt }
{
    for (i, requirement) in requirements.iter().enumerate() {
        check_requirement(chains, i, requirement)?;
    }
    Ok(())
}

/// Checks M46 for each requirement. Fails with the first refusal.
pub fn check_requirements(model: &SystemModel, names: &Names) -> Result<(), ModelFault>
    requires in_range { IsInRange model.now }
    requires names { names.now ≡ names_of model.now }
    ensures { Answers result (each (requirement_check model.now) model.now.requirements) tt }
{
    check_all_requirements(&names.chains, model.requirements.as_slice())
}
