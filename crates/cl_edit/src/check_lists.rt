//! Whether a chain may be added to a valid model, or a task or a chain dropped from it, by the few
//! checks that such a change needs.
ghost use Rattle.std.specs.Prelude.{◌≡◌, ◌==◌, ◌<◌, ◌^◌, not, length, slice_get, All, Some};
ghost use Rattle.std.specs.List.{list_any};
ghost use Rattle.std.specs.Option.{option_copied};
ghost use Rattle.cl_model.specs.{Answers.{Answers, Passes}, ByNumber.task_at, Changes.{with_new_chain, without_chain, without_task}, Groups.groups_at, Named.{same_name, has_name, is_some_and, chain_names, runnable_named}, Ranges.IsChainInRange, Refusals.each, Validity.{IsValid, step_of}};
ghost use Rattle.cl_model.specs.Validity.{misses_label, lengths_check, step_check, hop_check, chain_check, refusals_of};
ghost use Rattle.cl_model.specs.Place as place;
ghost use Rattle.cl_edit.specs.FewListChecks.{new_chain_name_check, new_chain_checks, kept_chain_check, kept_step_check, kept_steps_check};

use cl_model::{
    ChainDef, Code, Key, ModelFault, Name, Part, Place, RequirementDef, RunnableDef, Step, TaskDef,
    ValidModel, refuse_unless, refuse_when,
};
use cl_valid::{at_spot, entry_of};

pub(crate) fn contains(labels: &[Name], label: &Name) -> bool
    ensures { result ≡ has_name label.now labels.now }
{
    labels.iter().any(|other| label == other)
}

// ---- a new chain

/// Finds the runnable of this name. There is none exactly where no runnable has the name.
fn runnable_named<'a>(model: &'a ValidModel, name: &Name) -> Option<&'a RunnableDef>
    ensures { option_copied result ≡ runnable_named model.now name.now }
{
    match model.step_named(name) {
        Some(step) => Some(&model.task(step.task).runnables.as_slice()[step.place as usize]),
        None => None,
    }
}

/// Finds the runnable of step `k` of a chain. There is none exactly where the chain has no such
/// step, or no runnable has the name of the step.
fn step_of<'a>(model: &'a ValidModel, chain: &ChainDef, k: usize) -> Option<&'a RunnableDef>
    ensures { option_copied result ≡ step_of model.now chain.now k }
{
    let name = chain.runnables.at(k)?;
    runnable_named(model, name)
}

/// Whether the runnable of a step is known and doesn't write a label.
fn misses_write(step: Option<&RunnableDef>, label: &Name) -> bool
    ensures { result ≡ is_some_and (option_copied step.entry)
        (λ writer. not (has_name label.now writer.writes)) }
{
    match step {
        Some(writer) => !contains(writer.writes.as_slice(), label),
        None => false,
    }
}

/// Whether the runnable of a step is known and doesn't read a label.
fn misses_read(step: Option<&RunnableDef>, label: &Name) -> bool
    ensures { result ≡ is_some_and (option_copied step.entry)
        (λ reader. not (has_name label.now reader.reads)) }
{
    match step {
        Some(reader) => !contains(reader.reads.as_slice(), label),
        None => false,
    }
}

/// Whether step `k` is known and doesn't write a label, or the next step is known and doesn't read
/// it.
fn misses_label(model: &ValidModel, chain: &ChainDef, k: usize, label: &Name) -> bool
    requires { k < 2 ^ 32 }
    ensures { result ≡ misses_label model.now chain.now k label.now }
{
    misses_write(step_of(model, chain, k), label)
        || misses_read(step_of(model, chain, k + 1), label)
}

fn check_lengths(i: usize, chain: &ChainDef) -> Result<(), ModelFault>
    requires item { i < 2 ^ 32 }
    requires chain { IsChainInRange chain.now }
    ensures { Answers result (lengths_check i chain.now) tt }
{
    let fits = chain.labels.len() + 1 == chain.runnables.len();
    let place = entry_of(Part::Chain, i).at_key(Key::Labels);
    refuse_unless(fits, Code::M43, place)
}

fn check_step(model: &ValidModel, place: Place, k: usize, name: &Name) -> Result<(), ModelFault>
    requires { k < 2 ^ 32 }
    ensures { Answers result (step_check model.now place k name.now) tt }
{
    let is_known = model.step_named(name).is_some();
    refuse_unless(is_known, Code::M44, at_spot(place, k))
}

#[tactic(auto, using(cl_model::proofs::FirstRefusals::loop_faults))]
fn check_steps(model: &ValidModel, place: Place, steps: &[Name]) -> Result<(), ModelFault>
    requires { length steps.now < 2 ^ 32 }
    ensures { Answers result (each (step_check model.now place) steps.now) tt }
{
    for (k, name) in steps.iter().enumerate() {
        check_step(model, place, k, name)?;
    }
    Ok(())
}

fn check_hop(
    model: &ValidModel,
    chain: &ChainDef,
    place: Place,
    k: usize,
    label: &Name,
) -> Result<(), ModelFault>
    requires { k < 2 ^ 32 }
    ensures { Answers result (hop_check model.now chain.now place k label.now) tt }
{
    let is_missed = misses_label(model, chain, k, label);
    refuse_when(is_missed, Code::M45, at_spot(place, k))
}

#[tactic(auto, using(cl_model::proofs::FirstRefusals::loop_faults))]
fn check_hops(model: &ValidModel, place: Place, chain: &ChainDef) -> Result<(), ModelFault>
    requires { length chain.now.labels < 2 ^ 32 }
    ensures { Answers result (each (hop_check model.now chain.now place) chain.now.labels) tt }
{
    let labels = chain.labels.as_slice();
    for (k, label) in labels.iter().enumerate() {
        check_hop(model, chain, place, k, label)?;
    }
    Ok(())
}

/// Checks M43 to M45 for chain `i`.
#[tactic(auto, using(cl_model::proofs::FirstRefusals::faults), unfolding(cl_model::specs::Validity::chain_check))]
fn check_chain(model: &ValidModel, i: usize, chain: &ChainDef) -> Result<(), ModelFault>
    requires item { i < 2 ^ 32 }
    requires chain { IsChainInRange chain.now }
    ensures { Answers result (chain_check model.now i chain.now) tt }
{
    let place = entry_of(Part::Chain, i);
    check_lengths(i, chain)?;
    check_steps(
        model,
        place.at_key(Key::Runnables),
        chain.runnables.as_slice(),
    )?;
    check_hops(model, place.at_key(Key::Labels), chain)?;
    Ok(())
}

pub(crate) fn has_chain(model: &ValidModel, name: &Name) -> bool
    ensures { result ≡ has_name name.now (chain_names model.now) }
{
    model.chain_named(name).is_some()
}

/// Checks M25 for a new chain.
fn check_chain_name(model: &ValidModel, chain: &ChainDef) -> Result<(), ModelFault>
    ensures { Answers result (new_chain_name_check model.now chain.now) tt }
{
    let is_taken = has_chain(model, &chain.name);
    let place = Part::Chain.section_place().at_item(model.chains());
    refuse_when(is_taken, Code::M25, place.at_key(Key::Name))
}

/// Checks M25 and M43 to M45 for a new chain.
#[tactic(auto, using(cl_model::proofs::FirstRefusals::faults))]
fn check_parts_of_chain(model: &ValidModel, chain: &ChainDef) -> Result<(), ModelFault>
    requires { IsChainInRange chain.now }
    ensures { Answers result (new_chain_checks model.now chain.now) tt }
{
    let number = model.chains() as usize;
    check_chain_name(model, chain)?;
    check_chain(model, number, chain)?;
    Ok(())
}

/// Checks whether a chain may be added, for which there is room. Takes no memory.
pub(crate) fn check_new_chain(model: &ValidModel, chain: &ChainDef) -> Result<(), ModelFault>
    requires valid { IsValid model.now }
    requires chain { IsChainInRange chain.now }
    ensures { Passes result (refusals_of (with_new_chain model.now chain.now)) }
{
    check_parts_of_chain(model, chain)
}

// ---- a dropped chain

fn check_requirement(chain: &Name, i: usize, requirement: &RequirementDef) -> Result<(), ModelFault>
    requires { i < 2 ^ 32 }
    ensures { Answers result (kept_chain_check chain.now i requirement.now) tt }
{
    let place = entry_of(Part::Requirement, i).at_key(Key::Chain);
    refuse_when(*chain == requirement.chain, Code::M46, place)
}

#[tactic(auto, using(cl_model::proofs::FirstRefusals::loop_faults))]
fn check_requirements(chain: &Name, requirements: &[RequirementDef]) -> Result<(), ModelFault>
    requires { length requirements.now < 2 ^ 32 }
    ensures { Answers result (each (kept_chain_check chain.now) requirements.now) tt }
{
    for (i, requirement) in requirements.iter().enumerate() {
        check_requirement(chain, i, requirement)?;
    }
    Ok(())
}

/// Checks whether a chain may be dropped. Takes no memory.
pub(crate) fn check_dropped_chain(model: &ValidModel, chain: u32) -> Result<(), ModelFault>
    requires valid { IsValid model.now }
    requires chain { chain < length model.now.chains }
    ensures { Passes result (refusals_of (without_chain model.now chain)) }
{
    let requirements = model.plain().requirements.as_slice();
    check_requirements(&model.chain(chain).name, requirements)
}

// ---- a dropped task

/// Whether one of the runnables has this name.
fn has_runnable(runnables: &[RunnableDef], name: &Name) -> bool
    ensures { result ≡ list_any (λ runnable. same_name name.now runnable.name) runnables.now }
{
    runnables.iter().any(|runnable| *name == runnable.name)
}

fn check_kept_step(task: &TaskDef, place: Place, k: usize, name: &Name) -> Result<(), ModelFault>
    requires { k < 2 ^ 32 }
    ensures { Answers result (kept_step_check task.now place k name.now) tt }
{
    let is_dropped = has_runnable(task.runnables.as_slice(), name);
    refuse_when(is_dropped, Code::M44, at_spot(place, k))
}

#[tactic(auto, using(cl_model::proofs::FirstRefusals::loop_faults))]
fn check_kept_steps(task: &TaskDef, place: Place, steps: &[Name]) -> Result<(), ModelFault>
    requires { length steps.now < 2 ^ 32 }
    ensures { Answers result (each (kept_step_check task.now place) steps.now) tt }
{
    for (k, name) in steps.iter().enumerate() {
        check_kept_step(task, place, k, name)?;
    }
    Ok(())
}

/// Whether chain `c` passes a task.
fn passes(model: &ValidModel, c: u32, task: u32) -> bool
    requires { c < length model.now.chains }
    ensures { result ≡ list_any (λ group. group.task == task) (groups_at model.now c) }
{
    model.groups(c).iter().any(|group| group.task == task)
}

/// Checks M44 for chain `c` after a task is dropped. Only a chain that passes the task has its
/// steps checked.
fn check_kept_chain(
    model: &ValidModel,
    task: u32,
    c: usize,
    chain: &ChainDef,
) -> Result<(), ModelFault>
    requires valid { IsValid model.now }
    requires task { task < length model.now.tasks }
    requires item { c < 2 ^ 32 }
    requires chain { slice_get model.now.chains c ≡ Some chain.now }
    requires range { IsChainInRange chain.now }
    ensures { Answers result (kept_steps_check (task_at model.now task) c chain.now) tt }
{
    if passes(model, c as u32, task) {
        let place = entry_of(Part::Chain, c).at_key(Key::Runnables);
        check_kept_steps(model.task(task), place, chain.runnables.as_slice())
    } else {
        Ok(())
    }
}

#[tactic(auto, using(cl_model::proofs::FirstRefusals::loop_faults))]
fn check_kept_chains(model: &ValidModel, task: u32, chains: &[ChainDef]) -> Result<(), ModelFault>
    requires valid { IsValid model.now }
    requires task { task < length model.now.tasks }
    requires chains { chains.now ≡ model.now.chains }
    requires count { length chains.now < 2 ^ 32 }
    requires ranges { All IsChainInRange chains.now }
    ensures { Answers result (each (kept_steps_check (task_at model.now task)) chains.now) tt }
{
    for (c, chain) in chains.iter().enumerate() {
        check_kept_chain(model, task, c, chain)?;
    }
    Ok(())
}

/// Checks whether a task may be dropped. Takes no memory.
pub(crate) fn check_dropped_task(model: &ValidModel, task: u32) -> Result<(), ModelFault>
    requires valid { IsValid model.now }
    requires task { task < length model.now.tasks }
    ensures { Passes result (refusals_of (without_task model.now task)) }
{
    check_kept_chains(model, task, model.plain().chains.as_slice())
}
