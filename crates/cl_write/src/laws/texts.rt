//! Texts of models.
ghost use Rattle.std.specs.Prelude.{ℕ, List};
ghost use Rattle.cl_model.specs.{declared.model.SystemModel.SystemModel, AreNamed.AreNamed, Ranges.IsInRange};
ghost use Rattle.cl_write.specs.Texts.{IsTextOf};

/// Each model in range whose names are of the name grammar has a text that is read as that model, of
/// the least version from 2 on that can say it.
#[tactic(auto, using(crate::proofs::SomeTexts::some_text))]
pub fn models_have_texts()
    ensures { (model : SystemModel) → IsInRange model → AreNamed model
        → (text : List ℕ) × IsTextOf model text }
{}
