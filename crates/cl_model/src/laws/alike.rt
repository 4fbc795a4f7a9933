//! Models of the same names and labels: what is checked of them alike.
ghost use Rattle.std.specs.Prelude.{◌≡◌, ◌↔◌};
ghost use Rattle.cl_model.specs.{declared.model.SystemModel.SystemModel, NamedAlike.{AreNamedAlike, PassesButNames}, Refusals.each, ValidNames.name_checks, Validity.{IsValid, chain_check, requirement_check}};

/// Two models of the same names and labels are refused the same for their names, for their chains
/// and for their requirements.
pub fn names_are_checked_alike()
    ensures names { (old new : SystemModel) → AreNamedAlike old new
        → name_checks new ≡ name_checks old }
    ensures chains { (old new : SystemModel) → AreNamedAlike old new
        → each (chain_check new) new.chains ≡ each (chain_check old) old.chains }
    ensures requirements { (old new : SystemModel) → AreNamedAlike old new
        → each (requirement_check new) new.requirements
        ≡ each (requirement_check old) old.requirements }
{}

/// A model that has the names and labels of a valid one is valid exactly where its numbers are in
/// range and its stimuli, its tasks and its deadlines are refused nothing.
pub fn alike_models_are_valid()
    ensures { (old new : SystemModel) → IsValid old → AreNamedAlike old new
        → (IsValid new ↔ PassesButNames new) }
{}
