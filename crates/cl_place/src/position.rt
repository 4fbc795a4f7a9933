//! Rows and columns of a text.
ghost use Rattle.std.specs.Prelude.{count_by, ◌≡◌};
ghost use Rattle.cl_place.specs.Positions.{is_line_feed, begins_character, BeginsLastRow, IsBehind};

use crate::mark::without_mark;
use memchr::memrchr;

/// Finds where the last row of some bytes begins.
fn last_row(bytes: &[u8]) -> usize
    ensures { BeginsLastRow bytes.now result }
{
    match memrchr(b'\n', bytes) {
        Some(at) => at + 1,
        None => 0,
    }
}

fn line_feeds(bytes: &[u8]) -> usize
    ensures { result ≡ count_by is_line_feed bytes.now }
{
    bytes.iter().filter(|byte| **byte == b'\n').count()
}

fn characters(bytes: &[u8]) -> usize
    ensures { result ≡ count_by begins_character bytes.now }
{
    bytes
        .iter()
        .filter(|byte| !(128 <= **byte && **byte < 192))
        .count()
}

/// Returns the row and the column behind some bytes, both counted from 1. Columns count characters,
/// a byte order mark none.
pub fn row_and_column(before: &[u8]) -> (usize, usize)
    ensures { IsBehind before.now result.0 result.1 }
{
    let row = without_mark(&before[last_row(before)..]);
    (line_feeds(before) + 1, characters(row) + 1)
}
