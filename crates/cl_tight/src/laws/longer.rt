//! What is found where times are longer: nothing that isn't met becomes met.
ghost use Rattle.std.specs.Prelude.{◌≡◌, ℕ, true, false, All};
ghost use Rattle.cl_model.specs.{declared.model.SystemModel.SystemModel, Groups.groups_at, Validity.IsValid, ByNumber.requirement_at};
ghost use Rattle.cl_runs.specs.{Requirements.required_chain, SystemOf.system_of};
ghost use Rattle.cl_hop.specs.{Bounds.Lengths, NoGreater.AreNoGreater};
ghost use Rattle.cl_resp.specs.LesserTimes.{TakesNoMore};
ghost use Rattle.cl_bound.specs.Answers.{answer_at, is_late};
ghost use Rattle.cl_analyse.specs.{declared.findings.ChainAnswer.TheVariants.Bounds, ChainAnswers.chain_answer_at, Verdicts.{verdict_at, is_met}};
ghost use Rattle.cl_tight.specs.{LongerTimes.{IsNoLonger, DifferInGreatestTimes}, TightFindings.tight_findings_of};

/// Longer times meet no more. A task that isn't late isn't late either where it and what it waits
/// for take no longer. Where that is so of each group of a chain, the chain has bounds that are no
/// greater, and a requirement on it that is met stays met.
pub fn longer_times_meet_no_more()
    ensures tasks { (less more : SystemModel) → IsValid less → IsValid more
        → DifferInGreatestTimes less more
        → (task : ℕ) → TakesNoMore (system_of less) (system_of more) task
        → is_late (answer_at (tight_findings_of more).tasks task) ≡ false
        → is_late (answer_at (tight_findings_of less).tasks task) ≡ false }
    ensures chains { (less more : SystemModel) → IsValid less → IsValid more
        → DifferInGreatestTimes less more
        → (chain : ℕ) → All (IsNoLonger (system_of less) (system_of more)) (groups_at less chain)
        → (bounds : Lengths) → chain_answer_at (tight_findings_of more).chains chain ≡ Bounds bounds
        → (lesser : Lengths) × (chain_answer_at (tight_findings_of less).chains chain ≡ Bounds lesser)
        × AreNoGreater lesser bounds }
    ensures requirements { (less more : SystemModel) → IsValid less → IsValid more
        → DifferInGreatestTimes less more
        → (requirement : ℕ)
        → All (IsNoLonger (system_of less) (system_of more))
        (groups_at less (required_chain less (requirement_at less requirement)))
        → is_met (verdict_at (tight_findings_of more).verdicts requirement) ≡ true
        → is_met (verdict_at (tight_findings_of less).verdicts requirement) ≡ true }
{}
