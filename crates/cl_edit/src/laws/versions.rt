//! Lists of version 1 and of version 2.
ghost use Rattle.std.specs.Prelude.{◌≡◌, ℕ, List, ◌++◌, codes};
ghost use Rattle.cl_text.specs.Line.{line};
ghost use Rattle.cl_edit.specs.{declared.{edit_lines.ListedEdit.ListedEdit, version.Version.TheVariants.One}, FirstLists.IsFirstList, Reading.AreEditsOf};

/// A list of version 1 is its title and one line for each edit, each with its end. Nothing else
/// stands in it, so that the lines are numbered from 2.
pub fn first_lists_are_lines()
    ensures lines { (text : List ℕ) (listed : List ListedEdit) → (are : AreEditsOf text listed)
        → are.version ≡ One → IsFirstList text listed }
    ensures listed { (text : List ℕ) (listed : List ListedEdit) → IsFirstList text listed
        → (are : AreEditsOf text listed) × (are.version ≡ One) }
{}

/// A list of version 1 lists the same edits where the title of version 2 stands in the place of its
/// own.
pub fn first_lists_stay_lists()
    ensures { (rest : List ℕ) (listed : List ListedEdit)
        → AreEditsOf (line (codes "chainlat edits 1") ++ rest) listed
        → AreEditsOf (line (codes "chainlat edits 2") ++ rest) listed }
{}
