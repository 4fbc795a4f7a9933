//! The errors of reading edits.
use cl_text::LinesFault;
use cl_time::NoMemory;

/// Why a text isn't read as a list of edits: its first bad line, or memory ran out.
pub type EditsFault = LinesFault;

/// Why a word or a line isn't read: it is outside the grammar, or memory ran out.
#[derive(Clone, Copy, PartialEq, Eq)]
pub(crate) enum Unread {
    Bad,
    NoMemory,
}

impl From<NoMemory> for Unread {
    ghost use Rattle.std.specs.Prelude.{◌≡◌};
    ghost use Rattle.cl_edit.specs.declared.fault.Unread.TheVariants.{NoMemory};

    ghost from_gives = { λ _ fault. fault ≡ NoMemory };

    fn from(_: NoMemory) -> Unread {
        Unread::NoMemory
    }
}
