//! The steps of a reaction: from the write of each job to the read of the next.
ghost use Rattle.std.specs.Prelude.{◌≡◌, ◌+◌, ◌<◌, ◌++◌, [], ◌∷◌, length, OnOk};
ghost use Rattle.cl_picture.specs.Pieces.{pieces_text, print};
ghost use Rattle.cl_draw.specs.{ChainLines.{steps_head, step_pieces, step_pieces_at, steps_line}, Inner.{Heights.ArePlaces, Looks.{IsLook, AreStopsOf}}};

use crate::chain_heights::{leave, line_at, middle_of};
use crate::chain_lines::Look;
use crate::places::Places;
use crate::stops::{Reaction, Stop, first_stop, stop_at};
use cl_model::ValidModel;
use cl_picture::{Piece, put_line, put_pieces};
use cl_text::Text;
use cl_time::NoMemory;

/// Puts the line of the steps of a reaction: from the input to the read of the first job, and from
/// the write of each job to the read of the next.
pub(crate) fn put_steps(
    text: &mut Text,
    opening: &'static [u8],
    model: &ValidModel,
    places: &Places,
    look: Look,
    reaction: &Reaction,
) -> Result<(), NoMemory>
    requires places { ArePlaces model.now places.now }
    requires look { IsLook look }
    requires stops { AreStopsOf model.now reaction.now.stops }
    ensures { OnOk result
        (text.new ≡ text.old ++ print (steps_line model.now look opening.now reaction.now ∷ [])) }
{
    let stops = reaction.stops.as_slice();
    put_steps_head(text, opening, model, places, look, reaction)?;
    for k in 0..stops.len() - 1 {
        put_step_at(text, model, places, look, stops, k)?;
    }
    put_line(text, &[Piece::Fixed(b"\"/>")])
}

/// Puts the line of the steps up to the read of the first job.
fn put_steps_head(
    text: &mut Text,
    opening: &'static [u8],
    model: &ValidModel,
    places: &Places,
    look: Look,
    reaction: &Reaction,
) -> Result<(), NoMemory>
    requires places { ArePlaces model.now places.now }
    requires look { IsLook look }
    requires stops { AreStopsOf model.now reaction.now.stops }
    ensures { OnOk result
        (text.new ≡ text.old ++ pieces_text (steps_head model.now look opening.now reaction.now)) }
{
    let first = first_stop(reaction);
    put_pieces(
        text,
        &[
            Piece::Fixed(opening),
            Piece::Number(look.window.x(reaction.from)),
            Piece::Fixed(b" "),
            Piece::Number(line_at(model, places, look.colour, &first)),
            Piece::Fixed(b"H"),
            Piece::Number(look.window.x(first.read)),
        ],
    )
}

/// Puts the step from the job of a group to the next one.
fn put_step_at(
    text: &mut Text,
    model: &ValidModel,
    places: &Places,
    look: Look,
    stops: &[Stop],
    group: usize,
) -> Result<(), NoMemory>
    requires places { ArePlaces model.now places.now }
    requires look { IsLook look }
    requires stops { AreStopsOf model.now stops.now }
    requires within { group + 1 < length stops.now }
    ensures { OnOk result
        (text.new ≡ text.old ++ pieces_text (step_pieces_at model.now look stops.now group)) }
{
    let stop = stop_at(stops, group);
    let next = stop_at(stops, group + 1);
    put_step(text, model, places, look, &stop, &next)
}

/// Puts the step from a job to the next one.
fn put_step(
    text: &mut Text,
    model: &ValidModel,
    places: &Places,
    look: Look,
    stop: &Stop,
    next: &Stop,
) -> Result<(), NoMemory>
    requires places { ArePlaces model.now places.now }
    requires look { IsLook look }
    requires stop { stop.now.task < length model.now.tasks }
    requires next { next.now.task < length model.now.tasks }
    ensures { OnOk result
        (text.new ≡ text.old ++ pieces_text (step_pieces model.now look stop.now next.now)) }
{
    let line = line_at(model, places, look.colour, next);
    let middle = middle_of(model, places, stop);
    let to = middle_of(model, places, next);
    put_pieces(
        text,
        &[
            Piece::Fixed(b"M"),
            Piece::Number(look.window.x(stop.write)),
            Piece::Fixed(b" "),
            Piece::Number(leave(look.colour, middle, to, line)),
            Piece::Fixed(b"V"),
            Piece::Number(line),
            Piece::Fixed(b"H"),
            Piece::Number(look.window.x(next.read)),
        ],
    )
}
