//! The lines of a reaction that lies in the window, along the jobs that carry it.
ghost use Rattle.std.specs.Prelude.{◌≡◌, ◌+◌, ◌<◌, ◌++◌, [], ◌∷◌, length, map, OnOk};
ghost use Rattle.std.specs.List.{flat_map};
ghost use Rattle.cl_picture.specs.Pieces.{pieces_text, print};
ghost use Rattle.cl_draw.specs.{ChainLines.{stop_pieces, title_head, reaction_title_line, falls_line, frame_line, input_line, output_line, drawn_length_line, inside_lines}, Inner.{Heights.ArePlaces, Looks.{IsLook, AreStopsOf}}};

use crate::chain_heights::{half_of, line_at, middle_of};
use crate::chain_lines::Look;
use crate::places::Places;
use crate::reaction_steps::put_steps;
use crate::reaction_words::put_words;
use crate::stops::{Reaction, Stop, first_stop, last_stop};
use cl_model::{Name, ValidModel};
use cl_picture::{Piece, put_line, put_pieces};
use cl_text::Text;
use cl_time::NoMemory;

/// Puts the lines of a reaction that lies in the window.
pub(crate) fn put_inside(
    text: &mut Text,
    model: &ValidModel,
    places: &Places,
    look: Look,
    name: &Name,
    reaction: &Reaction,
) -> Result<(), NoMemory>
    requires places { ArePlaces model.now places.now }
    requires look { IsLook look }
    requires stops { AreStopsOf model.now reaction.now.stops }
    ensures { OnOk result
        (text.new ≡ text.old ++ print (inside_lines model.now look name.now reaction.now)) }
{
    put_title(text, model, name, reaction)?;
    put_falls(text, model, places, look, reaction)?;
    put_steps(
        text,
        b"<path class=\"o\" d=\"M",
        model,
        places,
        look,
        reaction,
    )?;
    put_steps(
        text,
        b"<path class=\"l\" d=\"M",
        model,
        places,
        look,
        reaction,
    )?;
    put_frames(text, model, places, look, reaction.stops.as_slice())?;
    put_input(text, model, places, look, reaction)?;
    put_output(text, model, places, look, reaction)?;
    put_length(text, look, reaction)?;
    put_words(text, model, look, reaction)
}

/// Puts the title of a reaction.
fn put_title(
    text: &mut Text,
    model: &ValidModel,
    name: &Name,
    reaction: &Reaction,
) -> Result<(), NoMemory>
    requires { AreStopsOf model.now reaction.now.stops }
    ensures { OnOk result
        (text.new ≡ text.old ++ print (reaction_title_line model.now name.now reaction.now ∷ [])) }
{
    put_title_head(text, name, reaction)?;
    put_stops(text, model, reaction.stops.as_slice())?;
    put_line(text, &[Piece::Fixed(b"</title>")])
}

/// Puts the jobs of a reaction.
fn put_stops(text: &mut Text, model: &ValidModel, stops: &[Stop]) -> Result<(), NoMemory>
    requires { AreStopsOf model.now stops.now }
    ensures { OnOk result
        (text.new ≡ text.old ++ pieces_text (flat_map (stop_pieces model.now) stops.now)) }
{
    for stop in stops {
        put_stop(text, model, stop)?;
    }
    Ok(())
}

/// Puts the line of the title of a reaction up to its jobs.
fn put_title_head(text: &mut Text, name: &Name, reaction: &Reaction) -> Result<(), NoMemory>
    ensures { OnOk result (text.new ≡ text.old ++ pieces_text (title_head name.now reaction.now)) }
{
    put_pieces(
        text,
        &[
            Piece::Fixed(b"<title>"),
            Piece::Name(name.as_slice()),
            Piece::Fixed(b": reaction "),
            Piece::Number(reaction.to.saturating_sub(reaction.from)),
            Piece::Fixed(b" from "),
            Piece::Number(reaction.from),
            Piece::Fixed(b" to "),
            Piece::Number(reaction.to),
            Piece::Fixed(b" jobs"),
        ],
    )
}

/// Puts the name of a job of a reaction.
fn put_stop(text: &mut Text, model: &ValidModel, stop: &Stop) -> Result<(), NoMemory>
    requires { stop.now.task < length model.now.tasks }
    ensures { OnOk result (text.new ≡ text.old ++ pieces_text (stop_pieces model.now stop.now)) }
{
    put_pieces(
        text,
        &[
            Piece::Fixed(b" "),
            Piece::Name(model.task(stop.task).name.as_slice()),
            Piece::Fixed(b":"),
            Piece::Number(stop.job),
        ],
    )
}

/// Puts the line of the two strokes between the ends of a reaction and its length in the row of the
/// chain.
fn put_falls(
    text: &mut Text,
    model: &ValidModel,
    places: &Places,
    look: Look,
    reaction: &Reaction,
) -> Result<(), NoMemory>
    requires places { ArePlaces model.now places.now }
    requires look { IsLook look }
    requires stops { AreStopsOf model.now reaction.now.stops }
    ensures { OnOk result
        (text.new ≡ text.old ++ print (falls_line model.now look reaction.now ∷ [])) }
{
    let first = line_at(model, places, look.colour, &first_stop(reaction));
    let last = line_at(model, places, look.colour, &last_stop(reaction));
    put_line(
        text,
        &[
            Piece::Fixed(b"<path class=\"v\" d=\"M"),
            Piece::Number(look.window.x(reaction.from)),
            Piece::Fixed(b" "),
            Piece::Number(look.y + 270),
            Piece::Fixed(b"V"),
            Piece::Number(first),
            Piece::Fixed(b"M"),
            Piece::Number(look.window.x(reaction.to)),
            Piece::Fixed(b" "),
            Piece::Number(look.y + 270),
            Piece::Fixed(b"V"),
            Piece::Number(last),
            Piece::Fixed(b"\"/>"),
        ],
    )
}

/// Puts the frames of the jobs.
fn put_frames(
    text: &mut Text,
    model: &ValidModel,
    places: &Places,
    look: Look,
    stops: &[Stop],
) -> Result<(), NoMemory>
    requires places { ArePlaces model.now places.now }
    requires look { IsLook look }
    requires stops { AreStopsOf model.now stops.now }
    ensures { OnOk result
        (text.new ≡ text.old ++ print (map (frame_line model.now look) stops.now)) }
{
    for stop in stops {
        put_frame(text, model, places, look, stop)?;
    }
    Ok(())
}

/// Puts the frame of a job, from its read to its write, and at least one unit wide.
fn put_frame(
    text: &mut Text,
    model: &ValidModel,
    places: &Places,
    look: Look,
    stop: &Stop,
) -> Result<(), NoMemory>
    requires places { ArePlaces model.now places.now }
    requires look { IsLook look }
    requires known { stop.now.task < length model.now.tasks }
    ensures { OnOk result (text.new ≡ text.old ++ print (frame_line model.now look stop.now ∷ [])) }
{
    let half = half_of(look.colour);
    let left = look.window.x(stop.read);
    let right = look.window.x(stop.write);
    let middle = middle_of(model, places, stop);
    put_line(
        text,
        &[
            Piece::Fixed(b"<rect class=\"q\" x=\""),
            Piece::Number(left),
            Piece::Fixed(b"\" y=\""),
            Piece::Number(middle.saturating_sub(half)),
            Piece::Fixed(b"\" width=\""),
            Piece::Number(right.saturating_sub(left).max(10)),
            Piece::Fixed(b"\" height=\""),
            Piece::Number(2 * half),
            Piece::Fixed(b"\"/>"),
        ],
    )
}

/// Puts the line of the input of a reaction.
fn put_input(
    text: &mut Text,
    model: &ValidModel,
    places: &Places,
    look: Look,
    reaction: &Reaction,
) -> Result<(), NoMemory>
    requires places { ArePlaces model.now places.now }
    requires look { IsLook look }
    requires stops { AreStopsOf model.now reaction.now.stops }
    ensures { OnOk result
        (text.new ≡ text.old ++ print (input_line model.now look reaction.now ∷ [])) }
{
    let first = first_stop(reaction);
    put_line(
        text,
        &[
            Piece::Fixed(b"<circle class=\"i\" cx=\""),
            Piece::Number(look.window.x(reaction.from)),
            Piece::Fixed(b"\" cy=\""),
            Piece::Number(line_at(model, places, look.colour, &first)),
            Piece::Fixed(b"\" r=\"45\"/>"),
        ],
    )
}

/// Puts the line of the output of a reaction.
fn put_output(
    text: &mut Text,
    model: &ValidModel,
    places: &Places,
    look: Look,
    reaction: &Reaction,
) -> Result<(), NoMemory>
    requires places { ArePlaces model.now places.now }
    requires look { IsLook look }
    requires stops { AreStopsOf model.now reaction.now.stops }
    ensures { OnOk result
        (text.new ≡ text.old ++ print (output_line model.now look reaction.now ∷ [])) }
{
    let last = last_stop(reaction);
    put_line(
        text,
        &[
            Piece::Fixed(b"<circle class=\"f\" cx=\""),
            Piece::Number(look.window.x(reaction.to)),
            Piece::Fixed(b"\" cy=\""),
            Piece::Number(line_at(model, places, look.colour, &last)),
            Piece::Fixed(b"\" r=\"25\"/>"),
        ],
    )
}

/// Puts the line of a reaction's length.
fn put_length(text: &mut Text, look: Look, reaction: &Reaction) -> Result<(), NoMemory>
    requires { IsLook look }
    ensures { OnOk result (text.new ≡ text.old ++ print (drawn_length_line look reaction.now ∷ [])) }
{
    put_line(
        text,
        &[
            Piece::Fixed(b"<path class=\"l\" d=\"M"),
            Piece::Number(look.window.x(reaction.from)),
            Piece::Fixed(b" "),
            Piece::Number(look.y + 210),
            Piece::Fixed(b"v120m0-60H"),
            Piece::Number(look.window.x(reaction.to)),
            Piece::Fixed(b"m0-60v120\"/>"),
        ],
    )
}
