//! The lines of the marks of a row.
ghost use Rattle.std.specs.Prelude.{◌≡◌, ◌<◌, ◌++◌, [], ◌∷◌, length, OnOk};
ghost use Rattle.cl_picture.specs.{Pieces.{pieces_text, print}, Window.IsPictureWindow};
ghost use Rattle.cl_draw.specs.MarkLines.{wait_pieces, waits_line, arrival_pieces, arrivals_line, due_pieces, dues_line, has_room, arrival_label_line, label_at, labels, mark_lines};

use crate::marks::{Arrival, Marks};
use crate::spans::Span;
use cl_picture::{Piece, Window, put_line, put_pieces};
use cl_text::Text;
use cl_time::NoMemory;

/// Puts the lines of the marks of a row.
pub(crate) fn put_marks(text: &mut Text, window: Window, marks: &Marks) -> Result<(), NoMemory>
    requires { IsPictureWindow window }
    ensures { OnOk result (text.new ≡ text.old ++ print (mark_lines window marks.now)) }
{
    put_waits(text, window, marks.waits.as_slice())?;
    put_arrivals(text, window, marks.arrivals.as_slice())?;
    put_dues(text, window, marks.dues.as_slice())?;
    put_labels(text, window, marks.arrivals.as_slice())
}

/// Puts the line of the waits of jobs for their release.
fn put_waits(text: &mut Text, window: Window, waits: &[Span]) -> Result<(), NoMemory>
    requires { IsPictureWindow window }
    ensures { OnOk result (text.new ≡ text.old ++ print (waits_line window waits.now ∷ [])) }
{
    put_pieces(text, &[Piece::Fixed(b"<path class=\"j\" d=\"")])?;
    for wait in waits {
        put_wait(text, window, *wait)?;
    }
    put_line(text, &[Piece::Fixed(b"\"/>")])
}

/// Puts a wait.
fn put_wait(text: &mut Text, window: Window, wait: Span) -> Result<(), NoMemory>
    requires { IsPictureWindow window }
    ensures { OnOk result (text.new ≡ text.old ++ pieces_text (wait_pieces window wait)) }
{
    put_pieces(
        text,
        &[
            Piece::Fixed(b"M"),
            Piece::Number(window.x(wait.from)),
            Piece::Fixed(b" 286H"),
            Piece::Number(window.x(wait.to)),
            Piece::Fixed(b"v-16"),
        ],
    )
}

/// Puts the line of the arrivals.
fn put_arrivals(text: &mut Text, window: Window, arrivals: &[Arrival]) -> Result<(), NoMemory>
    requires { IsPictureWindow window }
    ensures { OnOk result (text.new ≡ text.old ++ print (arrivals_line window arrivals.now ∷ [])) }
{
    put_pieces(text, &[Piece::Fixed(b"<path class=\"a\" d=\"")])?;
    for arrival in arrivals {
        put_arrival(text, window, *arrival)?;
    }
    put_line(text, &[Piece::Fixed(b"\"/>")])
}

/// Puts an arrival.
fn put_arrival(text: &mut Text, window: Window, arrival: Arrival) -> Result<(), NoMemory>
    requires { IsPictureWindow window }
    ensures { OnOk result (text.new ≡ text.old ++ pieces_text (arrival_pieces window arrival)) }
{
    put_pieces(
        text,
        &[
            Piece::Fixed(b"M"),
            Piece::Number(window.x(arrival.tick)),
            Piece::Fixed(b" 290l-28 52h56z"),
        ],
    )
}

/// Puts the line of the deadlines.
fn put_dues(text: &mut Text, window: Window, dues: &[u64]) -> Result<(), NoMemory>
    requires { IsPictureWindow window }
    ensures { OnOk result (text.new ≡ text.old ++ print (dues_line window dues.now ∷ [])) }
{
    put_pieces(text, &[Piece::Fixed(b"<path class=\"a\" d=\"")])?;
    for due in dues {
        put_due(text, window, *due)?;
    }
    put_line(text, &[Piece::Fixed(b"\"/>")])
}

/// Puts a deadline.
fn put_due(text: &mut Text, window: Window, due: u64) -> Result<(), NoMemory>
    requires { IsPictureWindow window }
    ensures { OnOk result (text.new ≡ text.old ++ pieces_text (due_pieces window due)) }
{
    put_pieces(
        text,
        &[
            Piece::Fixed(b"M"),
            Piece::Number(window.x(due)),
            Piece::Fixed(b" 80l-28-52h56z"),
        ],
    )
}

/// Checks whether there is room for the number of the job of an arrival before the next arrival.
fn has_room(window: Window, arrivals: &[Arrival], k: usize) -> bool
    requires window { IsPictureWindow window }
    requires within { k < length arrivals.now }
    ensures { result ≡ has_room window arrivals.now k }
{
    if arrivals.len() <= k + 1 {
        true
    } else {
        window.x(arrivals[k].tick) + 320 <= window.x(arrivals[k + 1].tick)
    }
}

/// Puts the numbers of the jobs of all arrivals for which there is room.
fn put_labels(text: &mut Text, window: Window, arrivals: &[Arrival]) -> Result<(), NoMemory>
    requires { IsPictureWindow window }
    ensures { OnOk result (text.new ≡ text.old ++ print (labels window arrivals.now)) }
{
    for k in 0..arrivals.len() {
        put_label_at(text, window, arrivals, k)?;
    }
    Ok(())
}

/// Puts the number of the job of an arrival, if there is room for it.
fn put_label_at(
    text: &mut Text,
    window: Window,
    arrivals: &[Arrival],
    k: usize,
) -> Result<(), NoMemory>
    requires window { IsPictureWindow window }
    requires within { k < length arrivals.now }
    ensures { OnOk result (text.new ≡ text.old ++ print (label_at window arrivals.now k)) }
{
    if has_room(window, arrivals, k) {
        put_label(text, window, arrivals[k])
    } else {
        Ok(())
    }
}

/// Puts the number of the job of an arrival.
fn put_label(text: &mut Text, window: Window, arrival: Arrival) -> Result<(), NoMemory>
    requires { IsPictureWindow window }
    ensures { OnOk result (text.new ≡ text.old ++ print (arrival_label_line window arrival ∷ [])) }
{
    put_line(
        text,
        &[
            Piece::Fixed(b"<text class=\"k\" x=\""),
            Piece::Number(window.x(arrival.tick) + 44),
            Piece::Fixed(b"\" y=\"366\">"),
            Piece::Number(arrival.job),
            Piece::Fixed(b"</text>"),
        ],
    )
}
