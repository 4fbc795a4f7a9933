//! An edit of a valid model needs few checks: each law says which refusals the changed model has,
//! in their order.
ghost use Rattle.std.specs.Prelude.{◌≡◌, ◌<◌, ℕ, Bool, false, List, [], Option, length, All};
ghost use Rattle.cl_model.specs.{declared.{chain.RequirementDef.RequirementDef, changes.TaskPriority.TaskPriority, group.Step.Step, model.SystemModel.SystemModel, stimulus.StimulusKind.StimulusKind, task.AccessKind.AccessKind}, Groups.IsStepOf, Named.{has_name, requirement_names}};
ghost use Rattle.cl_model.specs.{Validity.{IsValid, requirement_check, refusals_of}, Changes.{with_range, with_whole, with_kind, with_deadline, with_priorities, with_place, with_access, with_requirement, with_new_requirement, without_requirement}};
ghost use Rattle.cl_edit.specs.{declared.change.Change.TheVariants.Requirement, Changing.{IsPriorityOf, IsChangeOf}, FewChecks.{range_refusals, deadline_refusals, kind_refusals, priority_refusals, move_refusals}};

/// Where a runnable of a valid model gets other execution times, the changed model is refused
/// exactly where the least exceeds the greatest (M36).
pub fn ranges_need_one_check()
    ensures { (model : SystemModel) (step : Step) (least greatest : ℕ) → IsValid model
        → IsStepOf model step
        → refusals_of (with_range model step least greatest) ≡ range_refusals step least greatest }
{}

/// A valid model in which a runnable becomes whole, or is no longer whole, has no refusals.
pub fn whole_runnables_need_no_check()
    ensures { (model : SystemModel) (step : Step) (whole : Bool) → IsValid model
        → IsStepOf model step → refusals_of (with_whole model step whole) ≡ [] }
{}

/// A valid model in which a task gets another kind of access has no refusals.
pub fn access_needs_no_check()
    ensures { (model : SystemModel) (i : ℕ) (access : AccessKind) → IsValid model
        → i < length model.tasks → refusals_of (with_access model i access) ≡ [] }
{}

/// Where a task of a valid model gets another deadline, or none of its own, the refusals of the
/// changed model are those of three checks, in this order: its deadline doesn't exceed the least
/// distance of its stimulus (M32), it is later than the greatest jitter (M33), and it doesn't span
/// too many least distances of a task of higher priority on its core (M42).
pub fn deadlines_need_few_checks()
    ensures { (model : SystemModel) (i : ℕ) (deadline : Option ℕ) → IsValid model
        → i < length model.tasks
        → refusals_of (with_deadline model i deadline) ≡ deadline_refusals model i deadline }
{}

/// Where a stimulus of a valid model becomes one of another kind or with other numbers, the
/// refusals of the changed model are those of these checks, in this order: its own numbers (M27,
/// M28 and M47), then for each task that names it the deadline against the least distance and the
/// jitter (M32 and M33), and then each deadline against the least distances of each task of higher
/// priority on the same core, where one of the two tasks names the stimulus (M42).
pub fn kinds_need_few_checks()
    ensures { (model : SystemModel) (s : ℕ) (kind : StimulusKind) → IsValid model
        → s < length model.stimuli → refusals_of (with_kind model s (λ _. kind))
        ≡ kind_refusals model s kind }
{}

/// Where tasks of a valid model get other priorities, the refusals of the changed model are those
/// of two checks of all tasks, in this order: no task has the priority of an earlier task of its
/// core (M31), and no deadline spans too many least distances of a task of higher priority on the
/// same core (M42).
pub fn priorities_need_few_checks()
    ensures { (model : SystemModel) (priorities : List TaskPriority) → IsValid model
        → All (IsPriorityOf model) priorities
        → refusals_of (with_priorities model priorities) ≡ priority_refusals model priorities }
{}

/// Where a valid model gets a requirement in the place of one of the same name, or behind the
/// others, with another name than these, the changed model is refused exactly where the requirement
/// names no chain (M46).
pub fn requirements_need_one_check()
    ensures set { (model : SystemModel) (r : ℕ) (to : RequirementDef) → IsValid model
        → IsChangeOf model (Requirement r to)
        → refusals_of (with_requirement model r to) ≡ requirement_check model r to }
    ensures added { (model : SystemModel) (requirement : RequirementDef) → IsValid model
        → has_name requirement.name (requirement_names model) ≡ false
        → refusals_of (with_new_requirement model requirement)
        ≡ requirement_check model (length model.requirements) requirement }
    ensures dropped { (model : SystemModel) (r : ℕ) → IsValid model
        → refusals_of (without_requirement model r) ≡ [] }
{}

/// Where a task of a valid model gets another core and priority, the refusals of the changed model
/// are those of these checks, in this order: the core of each task is known, no earlier task of
/// that core has its priority, and the core isn't full before it (M29, M31 and M34), and then no
/// deadline spans too many least distances of a task of higher priority on the same core (M42).
pub fn moves_need_few_checks()
    ensures { (model : SystemModel) (i : ℕ) (core : List ℕ) (priority : ℕ) → IsValid model
        → refusals_of (with_place model i core priority) ≡ move_refusals model i core priority }
{}
