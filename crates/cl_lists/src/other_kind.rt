//! What is said of an edit of a stimulus that is of another kind.
ghost use Rattle.std.specs.Prelude.{◌≡◌, ◌++◌, OnOk};
ghost use Rattle.cl_text.specs.Line.{line};
ghost use Rattle.cl_lists.specs.OtherKinds.{kind_lines, other_kind_text};

use cl_edit::Edit;
use cl_model::Name;
use cl_text::Text;
use cl_time::NoMemory;

/// Appends a line of two words.
fn put_line(text: &mut Text, word: &[u8], other: &[u8]) -> Result<(), NoMemory>
    ensures { OnOk result (text.new ≡ text.old ++ line (word.now ++ other.now)) }
{
    text.put(word)?;
    text.put(other)?;
    text.put(b"\n")?;
    Ok(())
}

/// Appends which kind is wanted, and of which stimulus.
fn put_kind(text: &mut Text, kind: &[u8], stimulus: &Name) -> Result<(), NoMemory>
    ensures { OnOk result (text.new ≡ text.old ++ kind_lines kind.now stimulus.now) }
{
    put_line(text, b"wanted ", kind)?;
    put_line(text, b"with stimulus ", stimulus.as_slice())?;
    Ok(())
}

/// Appends what is said of an edit that is refused since its stimulus is of another kind: which
/// kind is wanted, and of which stimulus. Nothing is said of an edit that asks for no kind.
///
/// Fails with `NoMemory` where there is no memory for the text. Then the text ends with a prefix of
/// what is said, possibly empty.
pub fn put_other_kind(text: &mut Text, edit: &Edit) -> Result<(), NoMemory>
    ensures { OnOk result (text.new ≡ text.old ++ other_kind_text edit.now) }
{
    match edit {
        Edit::Period { stimulus, .. } | Edit::Jitter { stimulus, .. } => {
            put_kind(text, b"a periodic stimulus", stimulus)
        }
        Edit::Offset { stimulus, .. } => {
            put_kind(text, b"a periodic stimulus or a burst", stimulus)
        }
        Edit::Distances { stimulus, .. } => put_kind(text, b"a sporadic stimulus", stimulus),
        Edit::Burst { stimulus, .. } => put_kind(text, b"a burst", stimulus),
        _ => Ok(()),
    }
}
