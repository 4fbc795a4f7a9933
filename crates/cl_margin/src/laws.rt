//! What holds as greatest execution times grow: models stay valid, nothing that isn't met becomes
//! met, and there is exactly one margin.
ghost use Rattle.std.specs.Prelude.{◌≡◌, ℕ};
ghost use Rattle.cl_model.specs.{declared.model.SystemModel.SystemModel, Validity.IsValid, Ranges.IsInRange};
ghost use Rattle.cl_margin.specs.{declared.{answer.Margin.Margin, whose.Whose.Whose}, Grown.grown, Margins.{KeepsMet, IsMargin, SmallerKeepMet}, Inner.Touched.IsOfModel};

/// A valid model whose times have grown is valid where it is in range, and at 100 percent it is the
/// model itself.
pub fn grown_models_are_valid()
    ensures valid { (model : SystemModel) → IsValid model → (whose : Whose) (percent : ℕ)
        → IsInRange (grown model whose percent) → IsValid (grown model whose percent) }
    ensures same { (model : SystemModel) → IsValid model → (whose : Whose)
        → grown model whose 100 ≡ model }
{}

/// What keeps all that is met does so with each smaller percentage from 100 on.
pub fn smaller_percentages_keep_what_is_met()
    ensures { (model : SystemModel) → IsValid model → (whose : Whose) → IsOfModel model whose
        → (percent : ℕ) → KeepsMet model (grown model whose percent)
        → SmallerKeepMet model whose percent }
{}

/// A valid model has exactly one margin of all its tasks, and one of each.
pub fn margins_are_unique()
    ensures some { (model : SystemModel) → IsValid model → (whose : Whose) → IsOfModel model whose
        → (margin : Margin) × IsMargin model whose margin }
    ensures one { (model : SystemModel) (whose : Whose) (one other : Margin)
        → IsMargin model whose one → IsMargin model whose other → one ≡ other }
{}
