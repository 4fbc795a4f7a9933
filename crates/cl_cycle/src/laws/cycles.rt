//! The cycle of a task, after which the tasks in phase above it come round.
ghost use Rattle.std.specs.Prelude.{◌≡◌, ℕ, ◌*◌, ◌<◌, ◌≤◌, true, length};
ghost use Rattle.std.specs.Int.{◌∣◌};
ghost use Rattle.cl_model.specs.{declared.{limits.TheConstants.MOST_TICKS, model.SystemModel.SystemModel}, Validity.IsValid};
ghost use Rattle.cl_runs.specs.{Priorities.tasks_above, SystemOf.system_of, TaskTiming.{System, IsSound, timing_at}};
ghost use Rattle.cl_cycle.specs.{declared.cycle.TheConstants.MOST_IN_CYCLE, Counts.arrivals_of, Cycles.{is_one_of, in_phase_above, cycle_of}, DifferingRunnables.DifferInRunnables, Promises.ComesRound};

/// The cycle of a task of a sound system has a tick or more. It is a multiple of the period of the
/// task, if its arrivals are fixed, and of those of the tasks in phase, whose arrivals all are.
pub fn cycles_come_round()
    ensures some { (system : System) → IsSound system → (task : ℕ) → task < length system.tasks
        → 1 ≤ cycle_of system task }
    ensures own { (system : System) → IsSound system → (task : ℕ) → task < length system.tasks
        → (arrivals_of (timing_at system task).pattern).period ∣ cycle_of system task }
    ensures in_phase { (system : System) → IsSound system → (task : ℕ) → task < length system.tasks
        → (other : ℕ) → is_one_of (in_phase_above system task) other ≡ true
        → ComesRound system (cycle_of system task) other }
{}

/// The cycle of a task of a valid model is short enough for 64 bits.
pub fn cycles_are_short()
    ensures { (model : SystemModel) → IsValid model → (task : ℕ) → task < length model.tasks
        → cycle_of (system_of model) task ≤ MOST_IN_CYCLE * MOST_TICKS }
{}

/// Which tasks stand above a task, which of these are in phase, and its cycle depend on the
/// runnables of no task.
pub fn runnables_change_no_cycle()
    ensures above { (one other : System) → DifferInRunnables one other
        → (task : ℕ) → tasks_above one task ≡ tasks_above other task }
    ensures in_phase { (one other : System) → DifferInRunnables one other
        → (task : ℕ) → in_phase_above one task ≡ in_phase_above other task }
    ensures ticks { (one other : System) → DifferInRunnables one other
        → (task : ℕ) → cycle_of one task ≡ cycle_of other task }
{}
