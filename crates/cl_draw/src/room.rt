//! A limit on the bytes of the text of a picture, found before any of it is written. It holds where
//! the run has at most 1,000,000,000 ticks and the names of the model are of the name grammar.
ghost use Rattle.std.specs.Prelude.{◌≡◌, ℕ, ◌*◌, ◌<◌, ◌≤◌, length};
ghost use Rattle.cl_draw.specs.Lengths.{bars_of_task, bar_count, group_count, most_length};

use crate::rows::Row;
use cl_model::ValidModel;

/// The greatest number of bytes of what every picture holds.
pub const MOST_OF_PICTURE: usize = 6_000;

/// The greatest number of bytes for a core.
pub const MOST_OF_CORE: usize = 110;

/// The greatest number of bytes for a task, without its bars.
pub const MOST_OF_TASK: usize = 9_400;

/// The greatest number of bytes for a bar.
pub const MOST_OF_BAR: usize = 280;

/// The greatest number of bytes for a chain, without its groups.
pub const MOST_OF_CHAIN: usize = 1_200;

/// The greatest number of bytes for a group of a chain.
pub const MOST_OF_GROUP: usize = 200;

/// The greatest number of bars of a task: 960 for its bands, and 960 for its parts.
pub const MOST_BARS: usize = 1_920;

/// Counts the bars of the rows of all tasks.
fn bar_count(model: &ValidModel, rows: &[Row]) -> usize
    requires count { length rows.now ≡ length model.now.tasks }
    requires few { (task : ℕ) → task < length model.now.tasks
        → bars_of_task rows.now task ≤ MOST_BARS }
    ensures bars { result ≡ bar_count model.now rows.now }
    ensures most { result ≤ MOST_BARS * length model.now.tasks }
{
    let mut bars = 0;
    for task in 0..model.tasks() {
        let row = &rows[task as usize];
        bars += row.bands.len() + row.parts.len();
    }
    bars
}

/// Counts the groups of all chains.
fn group_count(model: &ValidModel) -> usize
    ensures groups { result ≡ group_count model.now }
    ensures most { result ≤ 64 * length model.now.chains }
{
    let mut groups = 0;
    for chain in 0..model.chains() {
        groups += model.group_count(chain) as usize;
    }
    groups
}

/// Returns the limit on the bytes of a picture with these rows.
pub(crate) fn room_of(model: &ValidModel, rows: &[Row]) -> usize
    requires count { length rows.now ≡ length model.now.tasks }
    requires few { (task : ℕ) → task < length model.now.tasks
        → bars_of_task rows.now task ≤ MOST_BARS }
    ensures { result ≡ most_length model.now (bar_count model.now rows.now) }
{
    MOST_OF_PICTURE
        + MOST_OF_CORE * model.cores() as usize
        + MOST_OF_TASK * model.tasks() as usize
        + MOST_OF_BAR * bar_count(model, rows)
        + MOST_OF_CHAIN * model.chains() as usize
        + MOST_OF_GROUP * group_count(model)
}
