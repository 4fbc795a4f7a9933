//! Each text has one answer: it lists edits, or it has a first bad line. An edit of a valid model
//! makes a valid model.
ghost use Rattle.std.specs.Prelude.{◌≡◌, ◌⊎◌, ℕ, List, Ok, All};
ghost use Rattle.cl_model.specs.{declared.model.SystemModel.SystemModel, AreNamed.AreNamed, Validity.IsValid};
ghost use Rattle.cl_edit.specs.{declared.{edit.Edit.Edit, edit_lines.ListedEdit.ListedEdit}, Edited.edited, Ranges.IsEditInRange, Reading.{AreEditsOf, IsBadEditLine, IsEditNamed, edits_of}};

pub mod few_checks;
pub mod lists;
pub mod versions;

/// A text lists edits, or it has a first bad line.
pub fn texts_have_an_answer()
    ensures { (text : List ℕ) → ((listed : List ListedEdit) × AreEditsOf text listed)
        ⊎ ((line : ℕ) × IsBadEditLine text line) }
{}

/// A text lists at most one list of edits, and it has at most one first bad line. A text that lists
/// edits has no bad line.
pub fn texts_have_one_answer()
    ensures edits { (text : List ℕ) (one other : List ListedEdit) → AreEditsOf text one
        → AreEditsOf text other → one ≡ other }
    ensures line { (text : List ℕ) (one other : ℕ) → IsBadEditLine text one
        → IsBadEditLine text other → one ≡ other }
    ensures apart { (text : List ℕ) (listed : List ListedEdit) (line : ℕ) → AreEditsOf text listed
        → IsBadEditLine text line → ⊥ }
{}

/// All edits that a text lists are in range.
pub fn listed_edits_are_in_range()
    ensures { (text : List ℕ) (listed : List ListedEdit) → AreEditsOf text listed
        → All IsEditInRange (edits_of listed) }
{}

/// An edit in range makes a valid model of a valid model, unless it is refused.
pub fn edited_models_are_valid()
    ensures { (model : SystemModel) (edit : Edit) (changed : SystemModel) → IsValid model
        → IsEditInRange edit
        → edited model edit ≡ Ok changed → IsValid changed }
{}

/// Where all names in a model and in an edit are of the name grammar, so are all names in the
/// edited model, unless the edit is refused.
pub fn edited_models_are_named()
    ensures { (model : SystemModel) (edit : Edit) (changed : SystemModel) → AreNamed model
        → IsEditNamed edit
        → edited model edit ≡ Ok changed → AreNamed changed }
{}
