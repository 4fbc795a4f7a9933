//! The first line of a trace.
ghost use Rattle.std.specs.Prelude.{◌≡◌};
ghost use Rattle.cl_traces.specs.Titles.{is_titled_trace};

use crate::lines::trace_line;

/// Whether the first line of a text is that of a trace, which may end with a carriage return here:
/// such a text is meant as a trace, and isn't one.
pub fn is_titled_trace(text: &[u8]) -> bool
    ensures { result ≡ is_titled_trace text.now }
{
    let line = trace_line(text, 1);
    line == b"chainlat trace 1".as_slice() || line == b"chainlat trace 1\r".as_slice()
}
