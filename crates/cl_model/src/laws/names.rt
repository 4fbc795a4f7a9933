//! The names in a valid model, which differ within each section and are found by look-up.
ghost use Rattle.std.specs.Prelude.{◌≡◌, ◌<◌, ℕ, List, [], Some, length, slice_index_or, All, Contains};
ghost use Rattle.cl_model.specs.{declared.{group.Step.Step, model.SystemModel.SystemModel, stimulus.{StimulusDef.StimulusDef, StimulusKind.StimulusKind}}, ByNumber.{task_at, chain_at, runnable_at, core_of, stimulus_of, task_named, chain_named}, Groups.{step_named, IsStepOf}};
ghost use Rattle.cl_model.specs.{KnownNames.AreFound, Named.{core_names, stimulus_names, label_names, task_names, chain_names, requirement_names, runnable_names, all_runnables, kind_named}, NameSets.AreDistinctNames, Validity.IsValid};

/// In a valid model the entries of a section have different names, and so have all runnables.
pub fn names_are_apart()
    ensures cores { (model : SystemModel) → IsValid model → AreDistinctNames (core_names model) }
    ensures stimuli { (model : SystemModel) → IsValid model
        → AreDistinctNames (stimulus_names model) }
    ensures labels { (model : SystemModel) → IsValid model → AreDistinctNames (label_names model) }
    ensures tasks { (model : SystemModel) → IsValid model → AreDistinctNames (task_names model) }
    ensures runnables { (model : SystemModel) → IsValid model
        → AreDistinctNames (runnable_names (all_runnables model.tasks)) }
    ensures chains { (model : SystemModel) → IsValid model → AreDistinctNames (chain_names model) }
    ensures requirements { (model : SystemModel) → IsValid model
        → AreDistinctNames (requirement_names model) }
{}

/// In a list of different names no name has two indices. A look-up finds each name at its own
/// index, and the index that it gives is one at which the name stands.
pub fn apart_names_are_found()
    ensures one_place { (names : List (List ℕ)) → AreDistinctNames names → (k j : ℕ)
        → k < length names → j < length names
        → slice_index_or names k [] ≡ slice_index_or names j [] → k ≡ j }
    ensures found { (names : List (List ℕ)) → AreDistinctNames names → AreFound names }
{}

/// Each task, chain and stimulus of a valid model is found by its name, and whatever is found by a
/// name has that name. A task of a valid model has the core that it names, and the kind of the
/// stimulus that it names.
pub fn entries_are_found()
    ensures task { (model : SystemModel) → IsValid model → (i : ℕ) → i < length model.tasks
        → task_named model (task_at model i).name ≡ Some i }
    ensures task_named { (model : SystemModel) → (name : List ℕ) (i : ℕ)
        → task_named model name ≡ Some i → (task_at model i).name ≡ name }
    ensures chain { (model : SystemModel) → IsValid model → (chain : ℕ)
        → chain < length model.chains
        → chain_named model (chain_at model chain).name ≡ Some chain }
    ensures chain_named { (model : SystemModel) → (name : List ℕ) (chain : ℕ)
        → chain_named model name ≡ Some chain
        → (chain_at model chain).name ≡ name }
    ensures stimulus { (model : SystemModel) → IsValid model
        → All (λ (s : StimulusDef). kind_named model s.name ≡ Some s.kind) model.stimuli }
    ensures stimulus_named { (model : SystemModel) → (name : List ℕ) (kind : StimulusKind)
        → kind_named model name ≡ Some kind
        → Contains model.stimuli (record { name = name; kind = kind }) }
    ensures core { (model : SystemModel) → IsValid model → (i : ℕ) → i < length model.tasks
        → slice_index_or (core_names model) (core_of model i) [] ≡ (task_at model i).core }
    ensures kind { (model : SystemModel) → IsValid model → (i : ℕ) → i < length model.tasks
        → Contains model.stimuli (record { name = (task_at model i).stimulus; kind = stimulus_of model i }) }
{}

/// Each core, stimulus and label of a valid model is found by its name, and whatever is found by a
/// name has that name.
pub fn sections_are_found()
    ensures cores { (model : SystemModel) → IsValid model → AreFound (core_names model) }
    ensures stimuli { (model : SystemModel) → IsValid model → AreFound (stimulus_names model) }
    ensures labels { (model : SystemModel) → IsValid model → AreFound (label_names model) }
{}

/// The name of a runnable of a valid model stands for the step of that runnable. In any model, a
/// name that some runnable has stands for a step of the model whose runnable has that name.
pub fn runnables_are_found()
    ensures own { (model : SystemModel) → IsValid model → (step : Step) → IsStepOf model step
        → step_named model (runnable_at model step).name ≡ step }
    ensures known { (model : SystemModel) → (name : List ℕ)
        → Contains (runnable_names (all_runnables model.tasks)) name
        → IsStepOf model (step_named model name) }
    ensures named { (model : SystemModel) → (name : List ℕ)
        → Contains (runnable_names (all_runnables model.tasks)) name
        → (runnable_at model (step_named model name)).name ≡ name }
{}
