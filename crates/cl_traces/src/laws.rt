//! What holds of what is said of a broken rule, whatever the code does.
ghost use Rattle.std.specs.Prelude.{◌≡◌, ℕ, List};
ghost use Rattle.cl_model.specs.{declared.model.SystemModel.SystemModel, Validity.IsValid};
ghost use Rattle.cl_runs.specs.Run.{Run};
ghost use Rattle.cl_check.specs.declared.run_fault.Rule.{Rule};
ghost use Rattle.cl_traces.specs.SaidOfRules.{IsSaidOfRule};

/// What is said of a broken rule is one text: also of a schedule, since a job table has one legal
/// run.
pub fn broken_rule_texts_are_unique()
    ensures { (model : SystemModel) → IsValid model → (run : Run) (rule : Rule) (place tick : ℕ)
        → (one other : List ℕ) → IsSaidOfRule model run rule place tick one
        → IsSaidOfRule model run rule place tick other → one ≡ other }
{}
