//! Each run in form shows one thing, and a legal run nothing that is above a bound or outside a
//! range.
ghost use Rattle.std.specs.Prelude.{◌≡◌, ℕ, ℤ, Option, Some, List, []};
ghost use Rattle.cl_model.specs.{declared.model.SystemModel.SystemModel, Validity.IsValid};
ghost use Rattle.cl_runs.specs.{Run.{Run, IsInForm}, SystemOf.system_of, Legal.IsLegal};
ghost use Rattle.cl_observe.specs.{declared.values.Spread.Spread, Observed.{above_words, outside_words, IsObservationOf}, Within.{IsNotAbove, AreInside, IsWithinFindings}};

/// Two texts that say what one run of a model shows are equal.
pub fn observations_are_unique()
    ensures { (model : SystemModel) (run : Run) (one other : List ℕ) → IsObservationOf model run one
        → IsObservationOf model run other → one ≡ other }
{}

/// Each run in form of a valid model shows something, legal or not, in order or not.
pub fn runs_have_observations()
    ensures { (model : SystemModel) → IsValid model → (run : Run) → IsInForm (system_of model) run
        → (text : List ℕ) × IsObservationOf model run text }
{}

/// What a legal run of a valid model shows lies within what is found of the model: each response
/// within the response by phases of its task, each jitter and each time within its range, and each
/// length of a chain, and each delay, within its tight bound.
pub fn legal_runs_show_nothing_outside()
    ensures { (model : SystemModel) → IsValid model → (run : Run) → IsLegal (system_of model) run
        → IsWithinFindings model run }
{}

/// A number within its bound isn't said to be above it, nor numbers in their range to be outside.
pub fn what_lies_within_is_not_marked()
    ensures above { (number : Option ℤ) (bound : ℕ) → IsNotAbove number (Some bound)
        → above_words number bound ≡ [] }
    ensures outside { (spread : Option Spread) (least greatest : ℕ) → AreInside spread least greatest
        → outside_words spread least greatest ≡ [] }
{}
