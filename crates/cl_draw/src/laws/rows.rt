//! Where the bars of a row lie, and what they show.
ghost use Rattle.std.specs.Prelude.{◌≡◌, ◌+◌, ℕ, ◌<◌, ◌≤◌, ◌++◌, [], ◌∷◌, List, Some, codes, filter, length, map};
ghost use Rattle.cl_model.specs.{declared.{model.SystemModel.SystemModel, task.TaskDef.TaskDef}, ByNumber.{deadline_of, task_at}, Validity.IsValid};
ghost use Rattle.cl_picture.specs.{declared.{item.{Bar.Bar, Item.Item}, window.Window.Window}, Bars.counts, Pieces.Fixed, Shown.{AreBarsOf, IsBarOf, IsUnder, LieSideBySide}, Window.{high_of, low_of}};
ghost use Rattle.cl_runs.specs.{Legal.IsLegal, Run.{Run, entry_at, jobs_of}, SystemOf.system_of, TaskTiming.timing_at};
ghost use Rattle.cl_draw.specs.{declared.rows.Row.Row, Hovers.{bar_shape, hover_pieces}, Items.{bands, part_item}, Picture.window_between, RowLines.bar_line, Rows.IsRowOf};

/// In the picture of a legal run of a valid model the bars of the bands of a row lie side by side,
/// and so do those of its parts: none overlaps another, each is at least one unit wide, and all lie
/// within the row.
pub fn bars_of_a_row_lie_side_by_side()
    ensures bands { (model : SystemModel) → IsValid model → (run : Run)
        → IsLegal (system_of model) run → (from to : ℕ) → from < to
        → to ≤ run.table.ticks → (task : ℕ) → task < length model.tasks → (row : Row)
        → IsRowOf model run (window_between from to) task row → LieSideBySide row.bands }
    ensures parts { (model : SystemModel) → IsValid model → (run : Run)
        → IsLegal (system_of model) run → (from to : ℕ) → from < to
        → to ≤ run.table.ticks → (task : ℕ) → task < length model.tasks → (row : Row)
        → IsRowOf model run (window_between from to) task row → LieSideBySide row.parts }
{}

/// Each tick of the window in which a task runs lies under the bars of the parts in the row of the
/// task, from the unit at or before the tick to the one at or after its end.
pub fn ticks_lie_under_bars()
    ensures { (model : SystemModel) → IsValid model → (run : Run) → IsLegal (system_of model) run
        → (from to : ℕ) → from < to
        → to ≤ run.table.ticks → (task : ℕ) → task < length model.tasks → (row : Row)
        → IsRowOf model run (window_between from to) task row → (tick : ℕ) → from ≤ tick → tick < to
        → entry_at run (timing_at (system_of model) task).core tick ≡ Some task
        → (place : ℕ) → low_of (window_between from to) tick ≤ place
        → place < high_of (window_between from to) (tick + 1)
        → IsUnder row.parts place }
{}

/// The bars of a row show each band and each part that shares a tick with the window once, and in
/// order.
pub fn rows_show_each_item()
    ensures bands { (model : SystemModel) (run : Run) (window : Window) (task : ℕ) (row : Row) (is : IsRowOf model run window task row)
        → AreBarsOf window
        (filter (counts window) (bands (jobs_of run task) (deadline_of model task) is.finishes run.table.ticks)) row.bands }
    ensures parts { (model : SystemModel) (run : Run) (window : Window) (task : ℕ) (row : Row) (is : IsRowOf model run window task row)
        → AreBarsOf window
        (filter (counts window) (map (part_item (jobs_of run task) (deadline_of model task) (task_at model task).runnables) is.parts))
        row.parts }
{}

/// A bar that shows one item names its job and says all else of it. A bar that shows several names
/// the jobs of the first and the last, and says when the first begins and when the last ends.
pub fn bars_name_their_first_and_last_item()
    ensures { (window : Window) (opening : List ℕ) (task : TaskDef) (first : Item) (others : List Item) (bar : Bar)
        → IsBarOf window first others bar
        → bar_line opening task bar
        ≡ bar_shape opening bar ++ hover_pieces task first others ++ Fixed (codes "</title></rect>") ∷ [] }
{}
