//! Complete chains: a chain without a late task has some of each kind.
ghost use Rattle.std.specs.Prelude.{ℕ, ◌<◌, length};
ghost use Rattle.cl_model.specs.{declared.model.SystemModel.SystemModel, Groups.groups_at, Validity.IsValid};
ghost use Rattle.cl_runs.specs.SystemOf.{system_of};
ghost use Rattle.cl_bound.specs.Answers.{NoneIsLate};
ghost use Rattle.cl_phase.specs.CompleteChains.{HasCompleteChains};
ghost use Rattle.cl_tight.specs.TightAnswers.{tight_answers_of};

/// A chain of a valid model, none of whose tasks is late by phases, has complete chains of each
/// kind in some legal run, and each of them lasts 1 tick or more.
pub fn timely_chains_complete()
    ensures { (model : SystemModel) → IsValid model → (chain : ℕ) → chain < length model.chains
        → NoneIsLate (tight_answers_of (system_of model)) (groups_at model chain)
        → HasCompleteChains (system_of model) (groups_at model chain) }
{}
