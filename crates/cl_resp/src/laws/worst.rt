//! What is known of worst windows, as laws over the definitions.
ghost use Rattle.std.specs.Prelude.{◌≡◌, ℕ};
ghost use Rattle.cl_runs.specs.TaskTiming.{System};
ghost use Rattle.cl_resp.specs.{declared.worst.WorstWindow.WorstWindow, Worst.IsWorstWindowOf};

/// A task has at most one worst window.
pub fn worst_windows_are_unique()
    ensures { (system : System) (task : ℕ) (one other : WorstWindow)
        → IsWorstWindowOf system task one → IsWorstWindowOf system task other → one ≡ other }
{}
