//! Chains that are added to a valid model or removed from it. The tables beside it are updated, not
//! made anew.
ghost use Rattle.std.specs.Prelude.{◌≡◌, ◌<◌, length, IfOk};
ghost use Rattle.cl_model.specs.{Changes.{with_new_chain, without_chain}, Validity.IsValid};

use crate::chain::ChainDef;
use crate::valid_model::ValidModel;
use cl_time::NoMemory;
use std::alloc::Global;

impl ValidModel {
    /// Returns the model with one more chain after the others. Where memory runs out, nothing is
    /// left of the model.
    pub fn with_chain(self, alloc: Global, chain: ChainDef) -> Result<ValidModel, NoMemory>
        requires { IsValid (with_new_chain self chain) }
        ensures { IfOk result (λ changed. changed ≡ with_new_chain self chain) }
    {
        let mut model = self.model;
        let mut look_ups = self.look_ups;
        look_ups.add_chain(alloc, &chain)?;
        model.chains.push(chain)?;
        Ok(ValidModel { model, look_ups })
    }

    /// Returns the model without a chain. The others keep their order.
    pub fn without_chain(self, chain: u32) -> ValidModel
        requires chain { chain < length self.chains }
        requires valid { IsValid (without_chain self chain) }
        ensures { result ≡ without_chain self chain }
    {
        let mut model = self.model;
        let mut look_ups = self.look_ups;
        look_ups.drop_chain(chain as usize);
        model.drop_chain(chain as usize);
        ValidModel { model, look_ups }
    }
}
