//! Tight findings of a valid model are safe, at least as tight as those of the report, and verify
//! that a model is in time.
ghost use Rattle.std.specs.Prelude.{◌≡◌, true};
ghost use Rattle.cl_model.specs.{declared.model.SystemModel.SystemModel, Validity.IsValid};
ghost use Rattle.cl_analyse.specs.{declared.findings.Findings.Findings, Findings.AreFindings};
ghost use Rattle.cl_tight.specs.{TightFindings.{tight_findings_of, is_verified}, Promises.{AreSafeTightFindings, AreAsTight}};
ghost use Rattle.cl_runs.specs.Requirements.{IsInTime};

pub mod complete;
pub mod exact;
pub mod longer;
pub mod timings;

/// In every legal run of a valid model, of any length, each job of a settled task finishes within
/// its response by phases, and no complete chain is longer than its tight bound, which is 1 tick or
/// more. Each requirement that is found met is kept, and each that is found broken is broken in
/// some legal run.
pub fn tight_findings_are_safe()
    ensures { (model : SystemModel) → IsValid model
        → AreSafeTightFindings model (tight_findings_of model) }
{}

/// Responses by phases are no later than those of the report, and tight bounds are at most those of
/// the report. Where the report has exact lengths, the tight bounds are these lengths.
pub fn tight_findings_are_as_tight()
    ensures { (model : SystemModel) → IsValid model → (report : Findings) → AreFindings model report
        → AreAsTight model (tight_findings_of model) report }
{}

/// A valid model that is verified is in time: in every legal run, each job whose deadline lies
/// within the run has finished by then, and each requirement is kept.
pub fn verified_models_are_in_time()
    ensures { (model : SystemModel) → IsValid model → is_verified (tight_findings_of model) ≡ true
        → IsInTime model }
{}
