//! What holds of each model that is read, valid or not.
ghost use Rattle.std.specs.Prelude.{◌≡◌, ℕ, List, Ok};
ghost use Rattle.cl_model.specs.{declared.model.SystemModel.SystemModel, AreNamed.AreNamed, Ranges.IsInRange, Reading.model_of};

/// The counts and numbers of each model that is read are in range, and its names are of the name
/// grammar.
pub fn read_models_are_plain()
    ensures in_range { (bytes : List ℕ) (model : SystemModel) → model_of bytes ≡ Ok model
        → IsInRange model }
    ensures named { (bytes : List ℕ) (model : SystemModel) → model_of bytes ≡ Ok model
        → AreNamed model }
{}
