//! What the names in a valid model refer to: the cores and stimuli of tasks, the labels of
//! runnables, the steps of chains, and the chains of requirements.
ghost use Rattle.std.specs.Prelude.{◌≡◌, ℕ, List, All, Contains};
ghost use Rattle.cl_model.specs.{declared.{chain.RequirementDef.RequirementDef, group.Step.Step, model.SystemModel.SystemModel}, ByNumber.runnable_at, Groups.IsStepOf, KnownNames.{HasKnownParts, HasKnownLabels, IsLinked}, Named.chain_names, Validity.IsValid};

/// The core and the stimulus that a task of a valid model names exist, and so does the chain that a
/// requirement names.
pub fn parts_are_known()
    ensures tasks { (model : SystemModel) → IsValid model → All (HasKnownParts model) model.tasks }
    ensures requirements { (model : SystemModel) → IsValid model
        → All (λ (requirement : RequirementDef). Contains (chain_names model) requirement.chain) model.requirements }
{}

/// A runnable of a valid model reads and writes labels of the model, each once in its list, and no
/// two runnables write the same label.
pub fn labels_are_known()
    ensures known { (model : SystemModel) → IsValid model → (step : Step) → IsStepOf model step
        → HasKnownLabels model (runnable_at model step) }
    ensures one_writer { (model : SystemModel) → IsValid model → (step other : Step)
        → IsStepOf model step → IsStepOf model other
        → (label : List ℕ) → Contains (runnable_at model step).writes label
        → Contains (runnable_at model other).writes label → step ≡ other }
{}

/// A chain of a valid model has at least one step, and one label fewer than steps. Each step is a
/// runnable of the model, and each label is written by the step before it and read by the step
/// after it.
pub fn chains_are_linked()
    ensures { (model : SystemModel) → IsValid model → All (IsLinked model) model.chains }
{}
