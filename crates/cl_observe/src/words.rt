//! The words that the lines of tasks and of chains share: numbers beside a bound, and in a range.
ghost use Rattle.std.specs.Prelude.{◌≡◌, ◌++◌, OnOk};
ghost use Rattle.cl_observe.specs.Observed.{above_words, bound_beside, is_outside, outside_words, spread_words, range_words};

use crate::values::Spread;
use cl_explain::put_signed;
use cl_text::Text;
use cl_time::NoMemory;

/// Puts the bound of a number and whether the number is above it, or that there is no bound.
pub(crate) fn put_bound_beside(
    text: &mut Text,
    number: Option<i128>,
    bound: Option<u64>,
) -> Result<(), NoMemory>
    ensures { OnOk result (text.new ≡ text.old ++ bound_beside number bound) }
{
    match bound {
        None => text.put(b" late"),
        Some(bound) => {
            text.put(b" bound ")?;
            text.put_number(bound)?;
            text.put(above_words(number, bound))
        }
    }
}

/// Returns what is said of a number that is above a bound.
fn above_words(number: Option<i128>, bound: u64) -> &'static [u8]
    ensures { result.now ≡ above_words number bound }
{
    match number {
        None => b"",
        Some(number) => {
            if i128::from(bound) < number {
                b" above"
            } else {
                b""
            }
        }
    }
}

/// Puts the least and the greatest number, the range in which a legal run has them, and whether
/// they aren't in it.
pub(crate) fn put_range(
    text: &mut Text,
    spread: Option<Spread>,
    least: u64,
    greatest: u64,
) -> Result<(), NoMemory>
    ensures { OnOk result (text.new ≡ text.old ++ range_words spread least greatest) }
{
    text.put(b" ")?;
    put_spread(text, spread)?;
    text.put(b" of ")?;
    text.put_number(least)?;
    text.put(b" to ")?;
    text.put_number(greatest)?;
    text.put(outside_words(spread, least, greatest))
}

/// Puts the least and the greatest number, or that there are none.
fn put_spread(text: &mut Text, spread: Option<Spread>) -> Result<(), NoMemory>
    ensures { OnOk result (text.new ≡ text.old ++ spread_words spread) }
{
    match spread {
        None => text.put(b"none"),
        Some(spread) => {
            put_signed(text, spread.least)?;
            text.put(b" to ")?;
            put_signed(text, spread.greatest)
        }
    }
}

/// Checks whether the least or the greatest number isn't in a range.
pub(crate) fn is_outside(spread: Spread, least: u64, greatest: u64) -> bool
    ensures { result ≡ is_outside spread least greatest }
{
    spread.least < i128::from(least) || i128::from(greatest) < spread.greatest
}

/// Returns what is said of numbers that aren't in a range.
fn outside_words(spread: Option<Spread>, least: u64, greatest: u64) -> &'static [u8]
    ensures { result.now ≡ outside_words spread least greatest }
{
    match spread {
        None => b"",
        Some(spread) => {
            if is_outside(spread, least, greatest) {
                b" outside"
            } else {
                b""
            }
        }
    }
}
