//! Whether a requirement of a valid model may be set or added, by the one check that it needs.
ghost use Rattle.std.specs.Prelude.{◌≡◌, ◌<◌, false, length};
ghost use Rattle.cl_model.specs.{Answers.{Answers, Passes}, ByNumber.requirement_at, Changes.{with_requirement, with_new_requirement}, Named.{has_name, requirement_names}, Validity.{IsValid, requirement_check, refusals_of}};

use crate::check_lists::has_chain;
use cl_model::{Code, Key, ModelFault, Part, RequirementDef, ValidModel, refuse_unless};

/// Checks M46 for requirement `i`: it names a chain.
fn check_chain(model: &ValidModel, i: u32, requirement: &RequirementDef) -> Result<(), ModelFault>
    ensures { Answers result (requirement_check model.now i requirement.now) tt }
{
    let place = Part::Requirement.section_place().at_item(i);
    refuse_unless(
        has_chain(model, &requirement.chain),
        Code::M46,
        place.at_key(Key::Chain),
    )
}

/// Checks whether a requirement of the same name may stand in the place of one. Takes no memory.
pub(crate) fn check_requirement(
    model: &ValidModel,
    i: u32,
    to: &RequirementDef,
) -> Result<(), ModelFault>
    requires valid { IsValid model.now }
    requires number { i < length model.now.requirements }
    requires name { to.now.name ≡ (requirement_at model.now i).name }
    ensures { Passes result (refusals_of (with_requirement model.now i to.now)) }
{
    check_chain(model, i, to)
}

/// Checks whether a requirement of a new name may be added, for which there is room. Takes no
/// memory.
pub(crate) fn check_new_requirement(
    model: &ValidModel,
    requirement: &RequirementDef,
) -> Result<(), ModelFault>
    requires valid { IsValid model.now }
    requires new { has_name requirement.now.name (requirement_names model.now) ≡ false }
    ensures { Passes result (refusals_of (with_new_requirement model.now requirement.now)) }
{
    check_chain(model, model.requirements(), requirement)
}
