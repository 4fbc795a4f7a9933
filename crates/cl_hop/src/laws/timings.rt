//! Timings of groups that hold in every legal run.
ghost use Rattle.std.specs.Prelude.{ℕ};
ghost use Rattle.cl_model.specs.declared.group.Group.{Group};
ghost use Rattle.cl_runs.specs.{TaskTiming.{System, IsSound}, Responses.IsTimely};
ghost use Rattle.cl_hop.specs.{Hops.group_timing, Timings.{IsGroupOfTask, AlwaysKeeps}};

/// The timing of a group by a response within which its task is timely always holds.
pub fn timings_by_responses_hold()
    ensures { (system : System) → IsSound system → (responses : ℕ → ℕ) (group : Group)
        → IsGroupOfTask system group → IsTimely system group.task (responses group.task)
        → AlwaysKeeps system group (group_timing system responses group) }
{}
