//! Requirements that are changed in a valid model, added to it or removed from it. The tables beside
//! it are updated, not made anew.
ghost use Rattle.std.specs.Prelude.{◌≡◌, ◌<◌, length, IfOk};
ghost use Rattle.cl_model.specs.{ByNumber.requirement_at, Changes.{with_requirement, with_new_requirement, without_requirement}, Validity.IsValid};

use crate::chain::RequirementDef;
use crate::valid_model::ValidModel;
use cl_time::NoMemory;

impl ValidModel {
    /// Returns the model with another requirement of the same name in the place of one. The name
    /// stays, so that the set of names needs no new order.
    pub fn with_requirement(self, number: u32, requirement: RequirementDef) -> ValidModel
        requires number { number < length self.requirements }
        requires name { requirement.name ≡ (requirement_at self number).name }
        requires valid { IsValid (with_requirement self number requirement) }
        ensures { result ≡ with_requirement self number requirement }
    {
        let mut model = self.model;
        model.set_requirement(number as usize, requirement);
        ValidModel {
            model,
            look_ups: self.look_ups,
        }
    }

    /// Returns the model with one more requirement after the others. Where memory runs out, nothing
    /// is left of the model.
    pub fn with_new_requirement(self, requirement: RequirementDef) -> Result<ValidModel, NoMemory>
        requires { IsValid (with_new_requirement self requirement) }
        ensures { IfOk result (λ changed. changed ≡ with_new_requirement self requirement) }
    {
        let mut model = self.model;
        let mut look_ups = self.look_ups;
        let _is_new = look_ups.names.requirements.add(&requirement.name)?;
        model.requirements.push(requirement)?;
        Ok(ValidModel { model, look_ups })
    }

    /// Returns the model without a requirement. The others keep their order.
    pub fn without_requirement(self, requirement: u32) -> ValidModel
        requires requirement { requirement < length self.requirements }
        requires valid { IsValid (without_requirement self requirement) }
        ensures { result ≡ without_requirement self requirement }
    {
        let mut model = self.model;
        let mut look_ups = self.look_ups;
        look_ups.names.requirements.remove(requirement as usize);
        model.drop_requirement(requirement as usize);
        ValidModel { model, look_ups }
    }
}
