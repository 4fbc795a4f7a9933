//! The lines of a row: its bars and its marks.
ghost use Rattle.std.specs.Prelude.{◌≡◌, ◌<◌, ◌++◌, [], ◌∷◌, length, map, All, OnOk};
ghost use Rattle.cl_picture.specs.{Pieces.{pieces_text, print}, Window.IsPictureWindow};
ghost use Rattle.cl_model.specs.ByNumber.{task_at};
ghost use Rattle.cl_draw.specs.{RowLines.{finish_piece, part_pieces, band_pieces, last_pieces, rest_pieces, words_pieces, bar_head, bar_line, row_lines}, Inner.{TaskRuns.IsTaskRun, DrawnBars.{IsItemOfTask, IsDrawableBar}}};

use crate::mark_lines::put_marks;
use crate::marks::marks_of;
use crate::rows::Row;
use crate::task_run::TaskRun;
use cl_model::TaskDef;
use cl_picture::{Bar, End, Item, Piece, Rest, Window, put_line, put_pieces, put_shift};
use cl_text::Text;
use cl_time::NoMemory;
use std::alloc::Global;

/// Puts the lines of the row of a task that begins at the height `y`.
pub(crate) fn put_row(
    alloc: Global,
    text: &mut Text,
    window: Window,
    of: TaskRun<'_>,
    y: u64,
    row: &Row,
) -> Result<(), NoMemory>
    requires window { IsPictureWindow window }
    requires of { IsTaskRun of.model.now of.run.now of.task }
    requires bands { All (IsDrawableBar (task_at of.model.now of.task)) row.now.bands }
    requires parts { All (IsDrawableBar (task_at of.model.now of.task)) row.now.parts }
    ensures { OnOk result
        (text.new ≡ text.old ++ print (row_lines of.entry.model.now of.entry.run.now window of.entry.task y row.now)) }
{
    let marks = marks_of(alloc, window, of)?;
    let task = of.model.task(of.task);
    put_shift(text, y)?;
    put_bars(text, b"<rect class=\"r", task, row.bands.as_slice())?;
    put_bars(text, b"<rect class=\"e", task, row.parts.as_slice())?;
    put_marks(text, window, &marks)?;
    put_line(text, &[Piece::Fixed(b"</g>")])
}

/// Puts the lines of bars.
fn put_bars(
    text: &mut Text,
    opening: &'static [u8],
    task: &TaskDef,
    bars: &[Bar],
) -> Result<(), NoMemory>
    requires { All (IsDrawableBar task.now) bars.now }
    ensures { OnOk result
        (text.new ≡ text.old ++ print (map (bar_line opening.now task.now) bars.now)) }
{
    for bar in bars {
        put_bar(text, opening, task, bar)?;
    }
    Ok(())
}

/// Puts the line of a bar.
fn put_bar(
    text: &mut Text,
    opening: &'static [u8],
    task: &TaskDef,
    bar: &Bar,
) -> Result<(), NoMemory>
    requires { IsDrawableBar task.now bar.now }
    ensures { OnOk result
        (text.new ≡ text.old ++ print (bar_line opening.now task.now bar.now ∷ [])) }
{
    put_bar_head(text, opening, task, bar)?;
    put_words(text, task, &bar.first, bar.last)?;
    put_line(text, &[Piece::Fixed(b"</title></rect>")])
}

/// Puts the line of a bar up to the name of the job of its first item.
fn put_bar_head(
    text: &mut Text,
    opening: &'static [u8],
    task: &TaskDef,
    bar: &Bar,
) -> Result<(), NoMemory>
    ensures { OnOk result (text.new ≡ text.old ++ pieces_text (bar_head opening.now task.now bar.now)) }
{
    put_pieces(
        text,
        &[
            Piece::Fixed(opening),
            Piece::Number(u64::from(bar.kind)),
            Piece::Fixed(b"\" x=\""),
            Piece::Number(bar.left),
            Piece::Fixed(b"\" y=\"90\" width=\""),
            Piece::Number(bar.right.saturating_sub(bar.left)),
            Piece::Fixed(b"\" height=\"180\"><title>"),
            Piece::Name(task.name.as_slice()),
            Piece::Fixed(b":"),
            Piece::Number(bar.first.job),
        ],
    )
}

/// Puts what a bar says behind the name of the job of its first item.
fn put_words(
    text: &mut Text,
    task: &TaskDef,
    first: &Item,
    last: Option<End>,
) -> Result<(), NoMemory>
    requires { IsItemOfTask task.now first.now }
    ensures { OnOk result (text.new ≡ text.old ++ pieces_text (words_pieces task.now first.now last)) }
{
    match last {
        None => put_rest(text, task, first),
        Some(last) => put_last(text, task, first, last),
    }
}

/// Puts what a bar of several items says of them: the name of the last job, when the first item
/// begins and when the last ends.
fn put_last(text: &mut Text, task: &TaskDef, first: &Item, last: End) -> Result<(), NoMemory>
    ensures { OnOk result (text.new ≡ text.old ++ pieces_text (last_pieces task.now first.now last)) }
{
    put_pieces(
        text,
        &[
            Piece::Fixed(b" to "),
            Piece::Name(task.name.as_slice()),
            Piece::Fixed(b":"),
            Piece::Number(last.job),
            Piece::Fixed(b" from "),
            Piece::Number(first.from),
            Piece::Fixed(b" to "),
            Piece::Number(last.to),
        ],
    )
}

/// Puts what a bar of one item says of it behind the name of its job.
fn put_rest(text: &mut Text, task: &TaskDef, item: &Item) -> Result<(), NoMemory>
    requires { IsItemOfTask task.now item.now }
    ensures { OnOk result
        (text.new ≡ text.old ++ pieces_text (rest_pieces task.now item.now item.now.rest)) }
{
    match item.rest {
        Rest::Part { place } => put_part(text, task, place, item),
        Rest::Band {
            arrival,
            due,
            finished,
        } => put_band(text, arrival, due, finished, item),
    }
}

/// Puts what is said of a part: its runnable, and when it begins and ends.
fn put_part(text: &mut Text, task: &TaskDef, place: usize, item: &Item) -> Result<(), NoMemory>
    requires { place < length task.now.runnables }
    ensures { OnOk result (text.new ≡ text.old ++ pieces_text (part_pieces task.now place item.now)) }
{
    put_pieces(
        text,
        &[
            Piece::Fixed(b" "),
            Piece::Name(task.runnables.as_slice()[place].name.as_slice()),
            Piece::Fixed(b" from "),
            Piece::Number(item.from),
            Piece::Fixed(b" to "),
            Piece::Number(item.to),
        ],
    )
}

/// Puts what is said of a band: the arrival, release, finish and deadline of its job.
fn put_band(
    text: &mut Text,
    arrival: u64,
    due: u64,
    finished: bool,
    item: &Item,
) -> Result<(), NoMemory>
    ensures { OnOk result
        (text.new ≡ text.old ++ pieces_text (band_pieces arrival due finished item.now)) }
{
    put_pieces(
        text,
        &[
            Piece::Fixed(b" arrival "),
            Piece::Number(arrival),
            Piece::Fixed(b" release "),
            Piece::Number(item.from),
            Piece::Fixed(b" finish "),
        ],
    )?;
    put_finish(text, finished, item.to)?;
    put_pieces(text, &[Piece::Fixed(b" deadline "), Piece::Number(due)])
}

/// Puts the finish of the job of a band, or `none` where it doesn't finish.
fn put_finish(text: &mut Text, finished: bool, to: u64) -> Result<(), NoMemory>
    ensures { OnOk result (text.new ≡ text.old ++ pieces_text (finish_piece finished to ∷ [])) }
{
    if finished {
        put_pieces(text, &[Piece::Number(to)])
    } else {
        put_pieces(text, &[Piece::Fixed(b"none")])
    }
}
