//! The byte order mark with which a text may begin.
ghost use Rattle.std.specs.Prelude.{◌≡◌, ◌≤◌, length, drop};
ghost use Rattle.toml.specs.Parse.{skip_bom};
ghost use Rattle.cl_place.specs.Places.{has_mark};

use toml_parser::bytes::byte_at;

fn has_mark(text: &[u8]) -> bool
    ensures { result ≡ has_mark text.now }
{
    byte_at(text, 0) == 0xEF && byte_at(text, 1) == 0xBB && byte_at(text, 2) == 0xBF
}

/// Returns how many bytes the byte order mark takes with which a text begins.
pub(crate) fn mark_length(text: &[u8]) -> usize
    ensures front { drop result text.now ≡ skip_bom text.now }
    ensures within { result ≤ length text.now }
{
    if has_mark(text) { 3 } else { 0 }
}

/// Returns a text without the byte order mark that it may begin with.
pub fn without_mark(text: &[u8]) -> &[u8]
    ensures { result.now ≡ skip_bom text.now }
{
    &text[mark_length(text)..]
}
