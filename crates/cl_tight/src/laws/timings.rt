//! What tight bounds know of groups by the phases of their cores: that it holds in every legal run,
//! and that it is no less than what responses alone say.
ghost use Rattle.std.specs.Prelude.{◌≡◌, false, List, All};
ghost use Rattle.cl_model.specs.{declared.{group.Group.Group, model.SystemModel.SystemModel}, Groups.IsGroupOf, Validity.IsValid};
ghost use Rattle.cl_runs.specs.{SystemOf.system_of, TaskTiming.{System, IsSound}};
ghost use Rattle.cl_lead.specs.LeastTimes.{HaveSameLeastTimes};
ghost use Rattle.cl_hop.specs.{Hops.group_timing, NoGreater.{StaysWithin, AreNoGreater}, Timings.{IsGroupOfTask, AlwaysKeeps}};
ghost use Rattle.cl_bound.specs.{Answers.{answers_of, answer_at, is_late, NoneIsLate}, Bounds.settled_timing};
ghost use Rattle.cl_phase.specs.TightBounds.{tight_bounds};
ghost use Rattle.cl_tight.specs.{LongerTimes.IsNoLonger, TightAnswers.{tight_answers_of, tight_response}, TightTimings.tight_timing};

/// What tight bounds know of a group of a valid model always holds, if its task isn't late by
/// phases: each job reads at the lead or later, and has written by its latest write.
pub fn timings_by_phases_hold()
    ensures { (model : SystemModel) → IsValid model → (group : Group) → IsGroupOf model group
        → is_late (answer_at (tight_answers_of (system_of model)) group.task) ≡ false
        → AlwaysKeeps (system_of model) group (tight_timing (system_of model) group) }
{}

/// Such a group reads no earlier and writes no later than its task's response alone says, by phases
/// or, where the task isn't late by it, by the report.
pub fn timings_by_phases_stay_within()
    ensures response { (model : SystemModel) → IsValid model → (group : Group)
        → IsGroupOf model group
        → is_late (answer_at (tight_answers_of (system_of model)) group.task) ≡ false
        → StaysWithin (tight_timing (system_of model) group)
        (group_timing (system_of model) (tight_response (system_of model)) group) }
    ensures report { (model : SystemModel) → IsValid model → (group : Group)
        → IsGroupOf model group
        → is_late (answer_at (answers_of (system_of model)) group.task) ≡ false
        → StaysWithin (tight_timing (system_of model) group)
        (settled_timing (system_of model) group) }
{}

/// Longer times bound no less: where the times of a group are no longer than in a system in which
/// its task isn't late, it isn't late either, and the group reads no earlier and writes no later.
/// Where those of all groups of a chain are, none of its tight bounds is greater.
pub fn longer_times_bound_no_less()
    ensures timely { (less more : System) → IsSound less → IsSound more
        → HaveSameLeastTimes less more
        → (group : Group) → IsGroupOfTask less group → IsNoLonger less more group
        → is_late (answer_at (tight_answers_of more) group.task) ≡ false
        → is_late (answer_at (tight_answers_of less) group.task) ≡ false }
    ensures windows { (less more : System) → IsSound less → IsSound more
        → HaveSameLeastTimes less more
        → (group : Group) → IsGroupOfTask less group → IsNoLonger less more group
        → is_late (answer_at (tight_answers_of more) group.task) ≡ false
        → StaysWithin (tight_timing less group) (tight_timing more group) }
    ensures bounds { (less more : System) → IsSound less → IsSound more
        → HaveSameLeastTimes less more
        → (groups : List Group) → All (IsGroupOfTask less) groups
        → All (IsNoLonger less more) groups → NoneIsLate (tight_answers_of more) groups
        → AreNoGreater (tight_bounds less (tight_timing less) groups)
        (tight_bounds more (tight_timing more) groups) }
{}
