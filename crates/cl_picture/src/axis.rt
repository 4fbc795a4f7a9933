//! The axis of a picture. Times are in ticks.
ghost use Rattle.std.specs.Prelude.{◌≡◌, ◌*◌, ◌<◌, ◌≤◌, ◌++◌, [], ◌∷◌, OnOk, OnErr, IsTrue, IfSome, nat_le};
ghost use Rattle.std.specs.List.{find, list_all};
ghost use Rattle.cl_text.specs.Beginnings.{PutsPart};
ghost use Rattle.cl_picture.specs.{Pieces.{pieces_text, print}, Window.IsPictureWindow, Axis.{is_step, axis_step, tick_at, axis_line, tick_pieces, tick_line, tick_lines, axis}, Inner.Axis.IsAxis};

use crate::pieces::{Piece, put_line, put_pieces};
use crate::window::{MOST_WINDOW, Window};
use cl_text::Text;
use cl_time::NoMemory;

/// The steps that an axis may have, in ticks: 1, 2, 5, 10, 20, 50 and so on.
const STEPS: [u64; 27] = [
    1,
    2,
    5,
    10,
    20,
    50,
    100,
    200,
    500,
    1_000,
    2_000,
    5_000,
    10_000,
    20_000,
    50_000,
    100_000,
    200_000,
    500_000,
    1_000_000,
    2_000_000,
    5_000_000,
    10_000_000,
    20_000_000,
    50_000_000,
    100_000_000,
    200_000_000,
    500_000_000,
];

/// The ticks of an axis: consecutive multiples of a step.
#[derive(Clone, Copy)]
struct Axis {
    step: u64,
    /// The first tick, in steps.
    first: u64,
    /// The number of ticks.
    count: u64,
}

/// Finds the first of these steps twelve of which are at least `span` ticks.
fn first_step(steps: &[u64], span: u64) -> Option<u64>
    requires { IsTrue (list_all is_step steps.now) }
    ensures first { result ≡ find (λ step. nat_le span (12 * step)) steps.now }
    ensures within { IfSome result (λ step. (0 < step) × (step ≤ MOST_WINDOW)) }
{
    for step in steps {
        if span <= 12 * *step {
            return Some(*step);
        }
    }
    None
}

/// Returns the least step twelve of which are at least `span` ticks, or `MOST_WINDOW` where no step
/// is long enough.
fn axis_step(span: u64) -> u64
    ensures step { result ≡ axis_step span }
    ensures some { 0 < result }
    ensures most { result ≤ MOST_WINDOW }
{
    first_step(&STEPS, span).unwrap_or(MOST_WINDOW)
}

/// Returns the ticks of the axis of a window: the multiples of its step that lie in it.
fn axis_of(window: Window) -> Axis
    requires { IsPictureWindow window }
    ensures { IsAxis window result }
{
    let step = axis_step(window.to - window.from);
    let first = (window.from + (step - 1)) / step;
    Axis {
        step,
        first,
        count: (window.to / step + 1).saturating_sub(first),
    }
}

/// Returns the tick `k` of the axis of a window, counted from 0.
fn tick_at(window: Window, axis: Axis, k: u64) -> u64
    requires window { IsPictureWindow window }
    requires axis { IsAxis window axis }
    requires within { k < axis.count }
    ensures { result ≡ tick_at window k }
{
    (axis.first + k) * axis.step
}

/// Appends the axis of a window to a text: a line that draws a stroke for each tick of the axis
/// down to the height `bottom`, a line with the word `ticks`, and a line with the number of each
/// tick.
///
/// `NoMemory` comes where there is no memory for the longer text. After `NoMemory` the text ends
/// with a prefix of the lines.
pub fn put_axis(text: &mut Text, window: Window, bottom: u64) -> Result<(), NoMemory>
    requires { IsPictureWindow window }
    ensures ok { OnOk result (text.new ≡ text.old ++ print (axis window bottom)) }
    ensures err { OnErr result (PutsPart text.old text.new (print (axis window bottom))) }
{
    let axis = axis_of(window);
    put_lines(text, window, axis, bottom)?;
    put_line(
        text,
        &[Piece::Fixed(b"<text class=\"m\" x=\"160\" y=\"270\">ticks</text>")],
    )?;
    put_ticks(text, window, axis)
}

/// Puts the line of the strokes of all ticks of an axis.
fn put_lines(text: &mut Text, window: Window, axis: Axis, bottom: u64) -> Result<(), NoMemory>
    requires window { IsPictureWindow window }
    requires axis { IsAxis window axis }
    ensures ok { OnOk result (text.new ≡ text.old ++ print (axis_line window bottom ∷ [])) }
    ensures err { OnErr result (PutsPart text.old text.new (print (axis_line window bottom ∷ []))) }
{
    put_pieces(text, &[Piece::Fixed(b"<path class=\"g\" d=\"")])?;
    for k in 0..axis.count {
        put_tick_line(text, window, bottom, tick_at(window, axis, k))?;
    }
    put_line(text, &[Piece::Fixed(b"\"/>")])
}

/// Puts the stroke of a tick.
fn put_tick_line(text: &mut Text, window: Window, bottom: u64, tick: u64) -> Result<(), NoMemory>
    requires { IsPictureWindow window }
    ensures ok { OnOk result (text.new ≡ text.old ++ pieces_text (tick_pieces window bottom tick)) }
    ensures err { OnErr result
        (PutsPart text.old text.new (pieces_text (tick_pieces window bottom tick))) }
{
    put_pieces(
        text,
        &[
            Piece::Fixed(b"M"),
            Piece::Number(window.x(tick)),
            Piece::Fixed(b" 360V"),
            Piece::Number(bottom),
        ],
    )
}

/// Puts the lines of the numbers of all ticks of an axis.
fn put_ticks(text: &mut Text, window: Window, axis: Axis) -> Result<(), NoMemory>
    requires window { IsPictureWindow window }
    requires axis { IsAxis window axis }
    ensures ok { OnOk result (text.new ≡ text.old ++ print (tick_lines window)) }
    ensures err { OnErr result (PutsPart text.old text.new (print (tick_lines window))) }
{
    for k in 0..axis.count {
        put_tick(text, window, tick_at(window, axis, k))?;
    }
    Ok(())
}

/// Puts the line of the number of a tick.
fn put_tick(text: &mut Text, window: Window, tick: u64) -> Result<(), NoMemory>
    requires { IsPictureWindow window }
    ensures ok { OnOk result (text.new ≡ text.old ++ print (tick_line window tick ∷ [])) }
    ensures err { OnErr result (PutsPart text.old text.new (print (tick_line window tick ∷ []))) }
{
    put_line(
        text,
        &[
            Piece::Fixed(b"<text class=\"x\" x=\""),
            Piece::Number(window.x(tick)),
            Piece::Fixed(b"\" y=\"270\">"),
            Piece::Number(tick),
            Piece::Fixed(b"</text>"),
        ],
    )
}
