//! A window of a run has exactly one picture, and what the picture shows of the chains is what is
//! measured in the run.
ghost use Rattle.std.specs.Prelude.{◌≡◌, ℕ, ◌<◌, ◌≤◌, List, length};
ghost use Rattle.cl_model.specs.{declared.model.SystemModel.SystemModel, Groups.groups_at, Validity.IsValid};
ghost use Rattle.cl_runs.specs.{Legal.IsLegal, Measured.{IsMeasured, Measured}, Run.Run, RunChains.run_moments, SystemOf.system_of};
ghost use Rattle.cl_draw.specs.{declared.places.TheConstants.{FIRST_TOP, HEAD, ROW}, Picture.IsPictureOf, Reactions.{IsShownOf, reaction_at}};

/// Each window of a legal run of a valid model has a picture.
pub fn windows_have_pictures()
    ensures { (model : SystemModel) → IsValid model → (run : Run) → IsLegal (system_of model) run
        → (from to : ℕ) → from < to
        → to ≤ run.table.ticks → (text : List ℕ) × IsPictureOf model run from to text }
{}

/// Two texts that are the picture of one window of a legal run of a valid model are equal.
pub fn pictures_are_unique()
    ensures { (model : SystemModel) → IsValid model → (run : Run) → IsLegal (system_of model) run
        → (from to : ℕ) (one other : List ℕ)
        → IsPictureOf model run from to one → IsPictureOf model run from to other → one ≡ other }
{}

/// A picture shows of each chain the longest reaction that is measured in the run, which is the one
/// that a replay of the run prints: with the same ends, the same job of each group, and the moments
/// at which that job reads and writes. It shows none where none is measured.
pub fn measured_reactions_are_shown()
    ensures { (model : SystemModel) (run : Run) (from to : ℕ) (text : List ℕ) (picture : IsPictureOf model run from to text)
        (chain : ℕ) → chain < length model.chains → (measured : Measured)
        → IsMeasured (run_moments (system_of model) run) (groups_at model chain) measured
        → IsShownOf (run_moments (system_of model) run) (groups_at model chain) measured.reaction (reaction_at picture.reactions chain) }
{}

/// Heights in a picture, as lengths: the first head begins at 380, a head is 320 high, and each row
/// is 400 high.
pub fn heights_of_heads_and_rows()
    ensures first { FIRST_TOP ≡ 380 }
    ensures head { HEAD ≡ 320 }
    ensures row { ROW ≡ 400 }
{}
