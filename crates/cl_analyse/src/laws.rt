//! What is found of a valid model is safe, is what defines it, and is unique.
ghost use Rattle.std.specs.Prelude.{◌≡◌, ℕ, ◌<◌, true, false, length, All};
ghost use Rattle.cl_model.specs.{declared.model.SystemModel.SystemModel, Groups.groups_at, Validity.IsValid, ByNumber.requirement_at};
ghost use Rattle.cl_runs.specs.{SystemOf.system_of, Requirements.{IsKept, IsBroken, MeetsDeadlines, IsInTime}};
ghost use Rattle.cl_hop.specs.Bounds.{Lengths, AreBoundsOf};
ghost use Rattle.cl_bound.specs.{declared.answer.TaskAnswer.TaskAnswer, Answers.{answers_of, is_late}, Bounds.settled_timings};
ghost use Rattle.cl_exact.specs.ExactLengths.{Witnesses};
ghost use Rattle.cl_analyse.specs.{declared.findings.{ChainAnswer.TheVariants.Bounds, ExactAnswer.TheVariants.Exact, Findings.Findings, Verdict.{Verdict, TheVariants.{Met, Broken}}}, ChainAnswers.{chain_answers_of, chain_answer_at, exact_answer_at}, Findings.AreFindings};
ghost use Rattle.cl_analyse.specs.{Headline.{AreWithinBounds, AreSafeFindings}, Verdicts.{verdict_at, is_met}};

/// In every legal run of a valid model, of any length, each job of a settled task finishes within
/// its response. No complete chain is longer than its bound or its exact length, and in each run
/// that is long enough some chain attains the exact length. A bound is missing only where a task
/// along the chain has no fixpoint within its deadline, and the first such task is named. Exact
/// lengths are missing only where a task is late, where one isn't both timed and periodic, or where
/// the hyperperiod exceeds the limit that is named.
pub fn findings_are_safe()
    ensures { (model : SystemModel) → IsValid model → (findings : Findings)
        → AreFindings model findings
        → AreSafeFindings model findings }
{}

/// A requirement that is found met is kept: in every legal run, no complete chain of its chain and
/// kind is longer than it says.
pub fn met_requirements_are_kept()
    ensures { (model : SystemModel) → IsValid model → (findings : Findings)
        → AreFindings model findings
        → (i value : ℕ) → i < length model.requirements → verdict_at findings.verdicts i ≡ Met value
        → IsKept model (requirement_at model i) }
{}

/// A requirement that is found broken is broken: in some legal run, a complete chain of its chain
/// and kind is longer than it says.
pub fn broken_requirements_are_broken()
    ensures { (model : SystemModel) → IsValid model → (findings : Findings)
        → AreFindings model findings
        → (i value : ℕ) → i < length model.requirements
        → verdict_at findings.verdicts i ≡ Broken value
        → IsBroken model (requirement_at model i) }
{}

/// A valid model none of whose tasks is late meets its deadlines in every legal run. Where each
/// requirement is found met, too, it is in time.
pub fn found_models_are_in_time()
    ensures deadlines { (model : SystemModel) → IsValid model
        → All (λ (answer : TaskAnswer). is_late answer ≡ false) (answers_of (system_of model))
        → MeetsDeadlines model }
    ensures all { (model : SystemModel) → IsValid model → (findings : Findings)
        → AreFindings model findings
        → All (λ (answer : TaskAnswer). is_late answer ≡ false) findings.tasks
        → All (λ (verdict : Verdict). is_met verdict ≡ true) findings.verdicts
        → IsInTime model }
{}

/// A valid model has findings, and no model has two different ones.
pub fn findings_are_unique()
    ensures some { (model : SystemModel) → IsValid model
        → (findings : Findings) × AreFindings model findings }
    ensures one { (model : SystemModel) → (one other : Findings) → AreFindings model one
        → AreFindings model other
        → one ≡ other }
{}

/// Each bound that is found of a chain is the sum over signed numbers that defines it.
pub fn found_bounds_are_sums()
    ensures { (model : SystemModel) → IsValid model → (chain : ℕ) (bounds : Lengths)
        → chain < length model.chains
        → chain_answer_at (chain_answers_of model) chain ≡ Bounds bounds
        → AreBoundsOf (settled_timings (system_of model) (groups_at model chain)) bounds }
{}

/// Each exact length that is found of a chain is at most the bound of its kind.
pub fn exact_lengths_are_within_bounds()
    ensures { (model : SystemModel) → IsValid model → (findings : Findings)
        → AreFindings model findings
        → (chain : ℕ) (lengths : Witnesses) (bounds : Lengths) → chain < length model.chains
        → exact_answer_at findings.exacts chain ≡ Exact lengths
        → chain_answer_at findings.chains chain ≡ Bounds bounds
        → AreWithinBounds lengths bounds }
{}
