//! The heights of the lines of a chain. Heights are lengths from the top.
ghost use Rattle.std.specs.Prelude.{◌≡◌, ◌<◌, ◌≤◌, ◌^◌, length};
ghost use Rattle.cl_draw.specs.{ChainLines.{middle_of, coloured_line, stop_line, half_of, leave}, Inner.Heights.ArePlaces};

use crate::places::Places;
use crate::stops::Stop;
use cl_model::ValidModel;

/// Returns the height of the line of a chain of this colour, in a row with this middle.
pub(crate) fn line_of(colour: u64, middle: u64) -> u64
    requires { middle ≤ 10 ^ 13 }
    ensures { result ≡ coloured_line colour middle }
{
    if colour == 0 {
        middle
    } else if colour == 1 {
        middle + 40
    } else if colour == 2 {
        middle.saturating_sub(40)
    } else {
        middle + 80
    }
}

/// Returns the height of the middle of the row of a stop.
pub(crate) fn middle_of(model: &ValidModel, places: &Places, stop: &Stop) -> u64
    requires places { ArePlaces model.now places.now }
    requires known { stop.now.task < length model.now.tasks }
    ensures middle { result ≡ middle_of model.now stop.now.task }
    ensures most { result ≤ 10 ^ 12 }
{
    places.row(model, stop.task) + 180
}

/// Returns the height of the line of a chain of this colour, in the row of a stop.
pub(crate) fn line_at(model: &ValidModel, places: &Places, colour: u64, stop: &Stop) -> u64
    requires places { ArePlaces model.now places.now }
    requires known { stop.now.task < length model.now.tasks }
    ensures { result ≡ stop_line model.now colour stop.now }
{
    line_of(colour, middle_of(model, places, stop))
}

/// Returns half the height of the frame around a job, for a chain of this colour.
pub(crate) fn half_of(colour: u64) -> u64
    requires { colour < 4 }
    ensures { result ≡ half_of colour }
{
    110 + 20 * colour
}

/// Returns the height at which a chain of this colour leaves the frame of a job in a row with this
/// middle, for a job in a row with the middle `next`: the lower or the upper edge of the frame, or
/// the height `line` where both jobs are in one row.
pub(crate) fn leave(colour: u64, middle: u64, next: u64, line: u64) -> u64
    requires colour { colour < 4 }
    requires most { middle ≤ 10 ^ 13 }
    ensures { result ≡ leave colour middle next line }
{
    let half = half_of(colour);
    if middle < next {
        middle + half
    } else if next < middle {
        middle.saturating_sub(half)
    } else {
        line
    }
}
