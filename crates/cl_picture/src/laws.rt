//! What bars show of a list of items.
ghost use Rattle.std.specs.Prelude.{◌≡◌, ℕ, ◌+◌, ◌*◌, ◌^◌, ◌<◌, ◌≤◌, List, [], ◌∷◌, All, filter, length, slice_index};
ghost use Rattle.std.specs.List.{flat_map, range_with_len};
ghost use Rattle.cl_picture.specs.{declared.{axis.TheConstants.STEPS, item.Item.Item, window.Window.Window}, Bars.{bars, counts}, Shown.{AreBarsOf, EndInOrder, FollowEachOther, HaveTicks, IsUnder, LieSideBySide}, Window.{high_of, low_of}};

/// If items end in order, and those that share a tick with the window are a tick long or more,
/// their bars lie side by side: none overlaps another, each is at least one unit wide, and all lie
/// within the row.
pub fn bars_lie_side_by_side()
    ensures { (window : Window) → window.from < window.to → (items : List Item) → EndInOrder items
        → HaveTicks (filter (counts window) items) → LieSideBySide (bars window items) }
{}

/// If items follow each other without sharing a tick, and each is a tick long or more, then each
/// item that shares a tick with the window lies under bars, from the unit at or before its
/// beginning to the one at or after its end.
pub fn items_lie_under_bars()
    ensures { (window : Window) → window.from < window.to → (items : List Item)
        → FollowEachOther items → HaveTicks items
        → All (λ item. (place : ℕ) → low_of window item.from ≤ place
        → place < high_of window item.to → IsUnder (bars window items) place)
        (filter (counts window) items) }
{}

/// The bars of a list of items show each item that shares a tick with the window once, and in
/// order. A bar holds its first item and, where it shows several, the end of the last; it ends in
/// the unit in which each of its items ends, and has the greatest of their classes.
pub fn bars_show_each_item()
    ensures { (window : Window) (items : List Item)
        → AreBarsOf window (filter (counts window) items) (bars window items) }
{}

/// The steps of an axis are 1, 2 and 5 times each power of ten from 1 to 100,000,000, and each is
/// less than the next.
pub fn steps_are_round_numbers()
    ensures numbers { STEPS ≡ flat_map
        (λ power. (10 ^ power) ∷ (2 * 10 ^ power) ∷ (5 * 10 ^ power) ∷ []) (range_with_len 0 9) }
    ensures rise { (k : ℕ) → k + 1 < length STEPS
        → slice_index STEPS k < slice_index STEPS (k + 1) }
{}
