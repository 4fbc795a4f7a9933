//! A run of a valid model has exactly one replay, and where the run is legal no margin of it is
//! negative.
ghost use Rattle.std.specs.Prelude.{◌≡◌, ℕ, List};
ghost use Rattle.cl_model.specs.{declared.model.SystemModel.SystemModel, Validity.IsValid};
ghost use Rattle.cl_runs.specs.{Run.Run, SystemOf.system_of, Legal.IsLegal, Measured.Measured};
ghost use Rattle.cl_analyse.specs.{declared.findings.Findings.Findings, Findings.AreFindings};
ghost use Rattle.cl_replay.specs.{Margins.{HaveMargins, IsReplayWithMargins}, Replay.{AreMeasured, IsReplayOf}};

/// Two texts that are the replay of one run of a model are equal.
pub fn replays_are_unique()
    ensures { (model : SystemModel) (run : Run) (one other : List ℕ) → IsReplayOf model run one
        → IsReplayOf model run other → one ≡ other }
{}

/// In a legal run of a valid model the longest measured chain of each kind has a job for each
/// group, ends no earlier than it begins, and its length plus its margin is the bound, where it has
/// one. So no margin is negative.
pub fn margins_are_not_negative()
    ensures { (model : SystemModel) → IsValid model → (findings : Findings)
        → AreFindings model findings
        → (run : Run) → IsLegal (system_of model) run → (measured : List Measured)
        → AreMeasured model run measured
        → HaveMargins model findings measured }
{}

/// Each run of a valid model has a replay, legal or not.
pub fn runs_have_replays()
    ensures { (model : SystemModel) → IsValid model → (run : Run)
        → (text : List ℕ) × IsReplayOf model run text }
{}

/// In each text that is the replay of a legal run of a valid model, whatever wrote it, each
/// measured length that has a bound and its margin add up to the bound.
pub fn replays_have_margins()
    ensures { (model : SystemModel) → IsValid model → (run : Run) → IsLegal (system_of model) run
        → (text : List ℕ) → IsReplayOf model run text → IsReplayWithMargins model run text }
{}
