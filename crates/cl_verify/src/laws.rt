//! What decisions say of every legal run.
ghost use Rattle.std.specs.Prelude.{◌≡◌, ◌↔◌, ℕ, ◌<◌, true, length};
ghost use Rattle.cl_model.specs.{declared.model.SystemModel.SystemModel, Validity.IsValid, ByNumber.requirement_at};
ghost use Rattle.cl_runs.specs.{Requirements.{IsKept, IsBroken}, Responses.AlwaysFinishesWithin, SystemOf.system_of};
ghost use Rattle.cl_tight.specs.TightFindings.{tight_findings_of, is_verified};
ghost use Rattle.cl_near.specs.Seen.{MissesDeadline};
ghost use Rattle.cl_verify.specs.{declared.decision.Decisions.Decisions, Decisions.{AreDecisionsOf, task_decision_at, decision_at}, VerifyText.{broken_count, unshown_count}};
ghost use Rattle.cl_verify.specs.declared.decision.Decision.TheVariants as requirement;
ghost use Rattle.cl_verify.specs.declared.decision.TaskDecision.TheVariants as task;

/// A task that is met finishes within its response in every legal run, and a requirement that is met
/// is kept in every one.
pub fn what_is_met_holds()
    ensures tasks { (model : SystemModel) → IsValid model → (decisions : Decisions)
        → AreDecisionsOf model decisions → (i response : ℕ) → i < length model.tasks
        → task_decision_at decisions.tasks i ≡ task.Met response
        → AlwaysFinishesWithin (system_of model) i response }
    ensures requirements { (model : SystemModel) → IsValid model → (decisions : Decisions)
        → AreDecisionsOf model decisions → (i bound : ℕ) → i < length model.requirements
        → decision_at decisions.requirements i ≡ requirement.Met bound
        → IsKept model (requirement_at model i) }
{}

/// A task that is broken misses its deadline in a legal run, and a requirement that is broken is
/// broken in one.
pub fn what_is_broken_is_so()
    ensures tasks { (model : SystemModel) (decisions : Decisions)
        → AreDecisionsOf model decisions → (i : ℕ) → i < length model.tasks
        → task_decision_at decisions.tasks i ≡ task.Broken
        → MissesDeadline model i }
    ensures requirements { (model : SystemModel) (decisions : Decisions)
        → AreDecisionsOf model decisions → (i bound seen : ℕ) → i < length model.requirements
        → decision_at decisions.requirements i ≡ requirement.Broken bound seen
        → IsBroken model (requirement_at model i) }
{}

/// A model is verified exactly where no line of its decisions says broken or unshown.
pub fn verified_models_are_met_whole()
    ensures { (model : SystemModel) (decisions : Decisions) → AreDecisionsOf model decisions
        → (is_verified (tight_findings_of model) ≡ true)
        ↔ ((broken_count decisions ≡ 0) × (unshown_count decisions ≡ 0)) }
{}

/// Each valid model has decisions.
pub fn valid_models_have_decisions()
    ensures { (model : SystemModel) → IsValid model
        → (decisions : Decisions) × AreDecisionsOf model decisions }
{}
