//! The longest stretches of a list of entries are determined by the entries, and hold them; and runs
//! of some cores are parts of legal runs.
ghost use Rattle.std.specs.Prelude.{◌≡◌, ℕ, suc, Option, None, ◌<◌, ◌≤◌, List, length, slice_index_or};
ghost use Rattle.cl_run_data.specs.{declared.stretches.Stretch.Stretch, Stretches.{AreStretchesOf, LastsFrom}};

pub mod parts;

/// The longest stretches of a list of entries are unique.
pub fn stretches_are_unique()
    ensures { (entries : List (Option ℕ)) (one other : List Stretch)
        → AreStretchesOf entries one → AreStretchesOf entries other → one ≡ other }
{}

/// In each tick from the start of a longest stretch to its end the entry is that of the stretch.
/// Each stretch lasts at least one tick, and the last one ends where the entries end.
pub fn stretches_hold_their_entries()
    ensures entry { (entries : List (Option ℕ)) (stretches : List Stretch)
        → AreStretchesOf entries stretches
        → (place start end : ℕ) → LastsFrom stretches place start end → (tick : ℕ) (d : Stretch)
        → start ≤ tick → tick < end
        → slice_index_or entries tick None ≡ (slice_index_or stretches place d).who }
    ensures some { (entries : List (Option ℕ)) (stretches : List Stretch)
        → AreStretchesOf entries stretches
        → (place start end : ℕ) → LastsFrom stretches place start end → start < end }
    ensures last { (entries : List (Option ℕ)) (stretches : List Stretch)
        → AreStretchesOf entries stretches
        → (place start end : ℕ) → LastsFrom stretches place start end → suc place ≡ length stretches
        → end ≡ length entries }
{}
