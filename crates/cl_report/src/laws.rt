//! A model has at most one report, and at most one survey.
ghost use Rattle.std.specs.Prelude.{◌≡◌, ℕ, List};
ghost use Rattle.cl_model.specs.declared.model.SystemModel.{SystemModel};
ghost use Rattle.cl_report.specs.{Report.IsReportOf, Survey.IsSurveyOf};

/// Two texts that are the report of one model are equal.
pub fn reports_are_unique()
    ensures { (model : SystemModel) → (one other : List ℕ) → IsReportOf model one
        → IsReportOf model other
        → one ≡ other }
{}

/// Two texts that are the survey of one model are equal.
pub fn surveys_are_unique()
    ensures { (model : SystemModel) → (one other : List ℕ) → IsSurveyOf model one
        → IsSurveyOf model other → one ≡ other }
{}
