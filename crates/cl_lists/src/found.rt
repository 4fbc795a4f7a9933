//! The line of what was found: a line of a list as it stands there.
ghost use Rattle.std.specs.Prelude.{◌≡◌, ◌++◌, OnOk};
ghost use Rattle.cl_lists.specs.BadLines.{line_found};

use crate::lines::{line_of, without_end};
use cl_advice::put_quoted;
use cl_edit::Version;
use cl_text::Text;
use cl_time::NoMemory;

/// Appends what stands in the line of this number, counted from 1, in quotes.
pub(crate) fn put_found_line(
    text: &mut Text,
    version: Version,
    list: &[u8],
    number: usize,
) -> Result<(), NoMemory>
    ensures { OnOk result (text.new ≡ text.old ++ line_found version list.now number) }
{
    text.put(b"found ")?;
    put_quoted(text, without_end(version, line_of(list, number)))?;
    text.put(b"\n")
}
