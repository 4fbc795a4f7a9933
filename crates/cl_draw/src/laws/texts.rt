//! The text of a picture: how long it is, and that no name or number in it can be read as markup.
ghost use Rattle.std.specs.Prelude.{ℕ, ◌*◌, ◌<◌, ◌≤◌, List, length};
ghost use Rattle.cl_model.specs.{declared.model.SystemModel.SystemModel, AreNamed.AreNamed, Validity.IsValid};
ghost use Rattle.cl_picture.specs.Plain.{ArePlain};
ghost use Rattle.cl_runs.specs.{Legal.IsLegal, Run.Run, SystemOf.system_of};
ghost use Rattle.cl_draw.specs.{Lengths.{bar_count, most_length}, Picture.{IsPictureOf, picture, window_between}};

/// No name and no number in a picture has a byte that the format takes as its own, which are `<`,
/// `>`, `&` and `"`, where the names of the model are of the name grammar.
pub fn values_are_plain()
    ensures { (model : SystemModel) → AreNamed model
        → (run : Run) (from to : ℕ) (text : List ℕ) (is : IsPictureOf model run from to text)
        → ArePlain (picture model run (window_between from to) is.rows is.reactions) }
{}

/// The picture of a window of a legal run of at most 1,000,000,000 ticks has at most 6,000 bytes,
/// plus 110 for each core, 9,400 for each task, 280 for each bar, 1,200 for each chain and 200 for
/// each group of a chain, where the names of the model are of the name grammar.
pub fn pictures_are_short()
    ensures { (model : SystemModel) → IsValid model → AreNamed model → (run : Run)
        → IsLegal (system_of model) run
        → run.table.ticks ≤ 1000000000 → (from to : ℕ) → from < to → to ≤ run.table.ticks
        → (text : List ℕ) (is : IsPictureOf model run from to text)
        → length text ≤ most_length model (bar_count model is.rows) }
{}

/// The picture of a window of a legal run of a valid model has at most 1,920 times as many bars as
/// the model has tasks.
pub fn bars_are_few()
    ensures { (model : SystemModel) → IsValid model → (run : Run) → IsLegal (system_of model) run
        → (from to : ℕ) → from < to
        → to ≤ run.table.ticks → (text : List ℕ) (is : IsPictureOf model run from to text)
        → bar_count model is.rows ≤ 1920 * length model.tasks }
{}
