//! What the reasons on a valid model promise.
ghost use Rattle.cl_model.specs.{declared.model.SystemModel.SystemModel, Validity.IsValid};
ghost use Rattle.cl_why.specs.Promises.{AddUpInWindows, LastAsBounds};

/// The shares of the worst window of a task of a valid model add up to the window, which ends its
/// response after the arrival. Those of a late task add up to its window, which ends at its
/// deadline, and a tick or more.
pub fn shares_add_up_to_windows()
    ensures { (model : SystemModel) → IsValid model → AddUpInWindows model }
{}

/// The walk of a bound of a chain of a valid model lasts as long as the bound. Where both groups of
/// a hop keep their phases, the job that just misses does so by a tick or more, and one of its group
/// that arrives so much later reads no earlier than the writer hands over at the latest.
pub fn walks_last_as_long_as_bounds()
    ensures { (model : SystemModel) → IsValid model → LastAsBounds model }
{}
