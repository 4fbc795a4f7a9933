//! What holds of the cuts of every chain of every sound system.
ghost use Rattle.std.specs.Prelude.{◌≡◌, ℕ, ◌<◌, List, None, length};
ghost use Rattle.cl_model.specs.{declared.{group.Group.Group, model.SystemModel.SystemModel}, Groups.groups_at, Validity.IsValid};
ghost use Rattle.cl_runs.specs.{SystemOf.system_of, TaskTiming.{System, IsSound}};
ghost use Rattle.cl_bound.specs.SettledChains.{IsSettledChain};
ghost use Rattle.cl_cut.specs.{Cuts.{IsCut, IsCost, IsBestCut, HasBestCut}, declared.answer.CutAnswer.CutAnswer, CutAnswers.{late_task_of, IsSafeReaction, AreCutAnswers, AreSafeAnswers, AreNoWorseAnswers}};

/// The cost of each cut of a settled chain of a sound system is at least the reaction of each of
/// its complete forward chains in each legal run, of any length. The reason is that, where a chain
/// is split into a front part and a rear part, the job before the first job of the rear part has
/// read before the last job of the front part has written.
pub fn cuts_are_safe()
    ensures { (system : System) → IsSound system → (groups : List Group)
        → IsSettledChain system groups
        → (pieces : List ℕ) (cost : ℕ) → IsCut groups pieces → IsCost system groups pieces cost
        → IsSafeReaction system groups cost }
{}

/// Each chain of a valid model none of whose tasks is late has a best cut.
pub fn best_cuts_exist()
    ensures { (model : SystemModel) → IsValid model → (chain : ℕ) → chain < length model.chains
        → late_task_of model chain ≡ None → HasBestCut (system_of model) (groups_at model chain) }
{}

/// A chain has at most one best cut, and that has one cost.
pub fn one_best_cut()
    ensures pieces { (system : System) (groups : List Group) (one other : List ℕ) (cost less : ℕ)
        → IsBestCut system groups one cost → IsBestCut system groups other less → one ≡ other }
    ensures cost { (system : System) (groups : List Group) (one other : List ℕ) (cost less : ℕ)
        → IsBestCut system groups one cost → IsBestCut system groups other less → cost ≡ less }
{}

/// A valid model has answers on the cuts of all its chains, and each model has at most one list of
/// them.
pub fn cut_answers_are_unique()
    ensures some { (model : SystemModel) → IsValid model
        → (answers : List CutAnswer) × AreCutAnswers model answers }
    ensures one { (model : SystemModel) (one other : List CutAnswer) → AreCutAnswers model one
        → AreCutAnswers model other → one ≡ other }
{}

/// The answers on the cuts of a valid model are safe: each cost is at least the reaction of each
/// complete forward chain in each legal run, of any length. Each cost is at most the bound on the
/// reaction of the uncut chain, and at most its exact reaction where the tasks of the chain are all
/// timed and periodic and its hyperperiod is within the limit.
pub fn cut_answers_are_safe()
    ensures safe { (model : SystemModel) → IsValid model → (answers : List CutAnswer)
        → AreCutAnswers model answers
        → AreSafeAnswers model answers }
    ensures no_worse { (model : SystemModel) → IsValid model → (answers : List CutAnswer)
        → AreCutAnswers model answers
        → AreNoWorseAnswers model answers }
{}
