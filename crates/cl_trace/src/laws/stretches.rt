//! The longest stretches of entries, computed from them.
ghost use Rattle.std.specs.Prelude.{◌≡◌, ℕ, List, Option};
ghost use Rattle.cl_run_data.specs.{declared.stretches.Stretch.Stretch, Stretches.AreStretchesOf};
ghost use Rattle.cl_trace.specs.Stretches.{stretches_of};

/// The stretches that are computed from a list of entries are its longest stretches, and there are
/// no others.
pub fn stretches_are_longest()
    ensures own { (entries : List (Option ℕ)) → AreStretchesOf entries (stretches_of entries) }
    ensures only { (entries : List (Option ℕ)) (stretches : List Stretch)
        → AreStretchesOf entries stretches
        → stretches ≡ stretches_of entries }
{}
