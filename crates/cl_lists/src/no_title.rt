//! What is said of a text that is neither a list of edits nor a trace.
ghost use Rattle.std.specs.Prelude.{◌≡◌, ◌++◌, OnOk};
ghost use Rattle.cl_lists.specs.NoTitles.{no_title_text};

use cl_text::Text;
use cl_time::NoMemory;

/// Appends which first lines there are.
///
/// Fails with `NoMemory` where there is no memory for the text, which then stays as it was.
#[tactic(auto, unfolding(crate::specs::NoTitles::no_title_text))]
pub fn put_no_title(text: &mut Text) -> Result<(), NoMemory>
    ensures { OnOk result (text.new ≡ text.old ++ no_title_text) }
{
    text.put(b"wanted chainlat edits 1, chainlat edits 2 or chainlat trace 1\n")
}
