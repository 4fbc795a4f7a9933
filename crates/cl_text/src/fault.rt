//! Why a list of lines isn't read.
use cl_time::NoMemory;

/// Why a text isn't read as a list of lines.
#[derive(Clone, Copy, PartialEq, Eq)]
pub enum LinesFault {
    /// The text isn't such a list: `line` is its first bad line, counted from 1.
    BadLine { line: u64 },
    /// Memory ran out.
    NoMemory,
}

impl From<NoMemory> for LinesFault {
    ghost use Rattle.std.specs.Prelude.{◌≡◌};
    ghost use Rattle.cl_text.specs.declared.fault.LinesFault.TheVariants.{NoMemory};

    ghost from_gives = { λ _ fault. fault ≡ NoMemory };

    fn from(_: NoMemory) -> LinesFault {
        LinesFault::NoMemory
    }
}
