//! Reading a text as a list of edits.
ghost use Rattle.std.specs.Prelude.{IfOk, List};
ghost use Rattle.cl_text.specs.LinesFault.{IfBadLine, ReadsThis};
ghost use Rattle.cl_edit.specs.{declared.edit_lines.ListedEdit.ListedEdit, Reading.{AreEditsOf, IsBadEditLine}};

use crate::edit_lines::{EditLines, ListedEdit};
use crate::fault::EditsFault;
use cl_model::List;
use std::alloc::Global;

/// Reads the edits that a text lists. Times are in ticks.
///
/// Each edit is in range, and each name in it is of the name grammar. `BadLine` comes exactly where
/// the text lists no edits. It has the number of the first line that is outside the grammar or that
/// is one too many, counted from 1. `NoMemory` comes where there is no memory for the edits. Either
/// error leaves nothing.
pub fn read_edits(alloc: Global, text: &[u8]) -> Result<List<ListedEdit>, EditsFault>
    ensures edits { IfOk result (AreEditsOf text.now) }
    ensures bad_line { IfBadLine result (IsBadEditLine text.now) }
    ensures only { (listed : List ListedEdit) → AreEditsOf text.now listed → ReadsThis result listed }
{
    let mut lines = EditLines::of(alloc, text)?;
    let mut listed = List::new(alloc);
    while let Some(edit) = lines.next(alloc)? {
        listed.push(edit)?;
    }
    Ok(listed)
}
