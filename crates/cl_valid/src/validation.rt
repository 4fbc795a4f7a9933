//! The validation of a model.
ghost use Rattle.std.specs.Prelude.{◌≡◌, ◌↔◌, IfOk, IfErr, OnOk, IsOk, None, Some, []};
ghost use Rattle.cl_model.specs.{Answers.{Answers, IsFaultOf}, Named.core_names, NameSets.AreDistinctNames, Ranges.IsInRange, ValidTasks.task_checks, Validity.{IsValid, refusals_of, refusal_of}};
ghost use Rattle.cl_valid.specs.Inner.{Parts.{link_checks, part_checks}, Tables.{names_of, kept_of}};

use crate::chains::{check_chains, check_requirements};
use crate::deadlines::check_deadlines;
use crate::names::{Names, names_of};
use crate::stimuli::check_stimuli;
use crate::tasks::{TasksSoFar, kept_tasks};
use cl_model::{ModelFault, SystemModel, ValidModel};
use std::alloc::Global;

/// Checks M42 to M46, once the tasks have passed.
#[tactic(auto, using(cl_model::proofs::FirstRefusals::faults))]
fn check_links(
    alloc: Global,
    model: &SystemModel,
    names: &Names,
    kept: &TasksSoFar<'_>,
) -> Result<(), ModelFault>
    requires in_range { IsInRange model.now }
    requires passed { task_checks model.now ≡ [] }
    requires names { names.now ≡ names_of model.now }
    requires kept { kept.now ≡ kept_of model.now model.now.tasks }
    ensures { Answers result (link_checks model.now) tt }
{
    check_deadlines(model, names, &kept.shares)?;
    check_chains(alloc, model, names, kept.uses.each.as_slice())?;
    check_requirements(model, names)?;
    Ok(())
}

/// Checks M27 to M47, once the names have passed.
fn check_parts(alloc: Global, model: &SystemModel, names: &Names) -> Result<(), ModelFault>
    requires in_range { IsInRange model.now }
    requires apart { AreDistinctNames (core_names model.now) }
    requires names { names.now ≡ names_of model.now }
    ensures { Answers result (part_checks model.now) tt }
{
    check_stimuli(model)?;
    let kept = kept_tasks(alloc, model, names)?;
    check_links(alloc, model, names, &kept)
}

/// Checks M20 to M47.
fn check(alloc: Global, model: &SystemModel) -> Result<(), ModelFault>
    requires { IsInRange model.now }
    ensures { Answers result (refusals_of model.now) tt }
{
    let names = names_of(alloc, model)?;
    check_parts(alloc, model, &names)
}

/// Turns a model, which must be in range, into a `ValidModel`. Fails with the first refusal of the
/// model, of M20 to M47, or with `NoMemory` where memory runs out, and then returns the model
/// unchanged.
pub fn validate(alloc: Global, model: SystemModel) -> Result<ValidModel, (SystemModel, ModelFault)>
    requires { IsInRange model }
    ensures same { IfOk result (λ valid. valid ≡ model) }
    ensures valid { OnOk result (IsValid model) }
    ensures refused { IfErr result (λ error. IsFaultOf (refusals_of model) error.1) }
    ensures back { IfErr result (λ error. error.0 ≡ model) }
{
    match check(alloc, &model) {
        Err(fault) => return Err((model, fault)),
        Ok(()) => {}
    }
    match ValidModel::adopt(alloc, model) {
        Ok(valid) => Ok(valid),
        Err((model, _)) => Err((model, ModelFault::NoMemory)),
    }
}
