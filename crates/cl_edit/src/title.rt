//! The version that a text names in its first line.
ghost use Rattle.std.specs.Prelude.{◌≡◌, IfOk};
ghost use Rattle.cl_edit.specs.Said.{version_of_line, version_named};

use crate::cursor::first_line;
use crate::said::{plain, without_mark, without_return};
use crate::version::Version;
use cl_time::NoMemory;
use std::alloc::Global;

/// Which version a first line names.
#[tactic(auto, unfolding(crate::specs::Said::version_of_line))]
fn version_of_line(alloc: Global, line: &[u8]) -> Result<Option<Version>, NoMemory>
    ensures { IfOk result (λ it. it ≡ version_of_line line.now) }
{
    let plain = plain(alloc, without_mark(line))?;
    if plain.as_slice() == b"chainlat edits 2".as_slice() {
        Ok(Some(Version::Two))
    } else if without_return(line) == b"chainlat edits 1".as_slice() {
        Ok(Some(Version::One))
    } else {
        Ok(None)
    }
}

/// Finds the version of lists that a text names in its first line, whether or not it lists edits.
/// `None` comes where the first line names none. A line that ends with a carriage return names
/// version 1 too.
///
/// Fails with `NoMemory` where there is no memory for the words of the line.
pub fn version_named(alloc: Global, text: &[u8]) -> Result<Option<Version>, NoMemory>
    ensures { IfOk result (λ it. it ≡ version_named text.now) }
{
    let (line, _) = first_line(text);
    version_of_line(alloc, line)
}
