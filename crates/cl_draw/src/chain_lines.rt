//! The lines of a chain: its longest reaction, along the jobs that carry it.
ghost use Rattle.std.specs.Prelude.{◌≡◌, ◌+◌, ◌++◌, [], ◌∷◌, OnOk};
ghost use Rattle.cl_picture.specs.Pieces.{print};
ghost use Rattle.cl_draw.specs.{ChainLines.{reaction_lines, drawn_group_line, open_lines, drawn_none_line, outside_line, shown_lines, drawn_chain_lines}, Inner.{Heights.ArePlaces, Looks.{IsLook, AreStopsOf, IsDrawableReaction}}};

use crate::places::Places;
use crate::reaction_lines::put_inside;
use crate::stops::Reaction;
use cl_model::{Name, ValidModel};
use cl_picture::{Piece, Window, put_line};
use cl_text::Text;
use cl_time::NoMemory;

/// How a chain is drawn: in which window, in which of four colours, and from which height on.
#[derive(Clone, Copy, PartialEq, Eq)]
pub struct Look {
    pub window: Window,
    pub colour: u64,
    pub y: u64,
}

/// Puts the lines of a chain.
pub(crate) fn put_chain(
    text: &mut Text,
    model: &ValidModel,
    places: &Places,
    look: Look,
    name: &Name,
    reaction: &Option<Reaction>,
) -> Result<(), NoMemory>
    requires places { ArePlaces model.now places.now }
    requires look { IsLook look }
    requires drawable { IsDrawableReaction model.now reaction.now }
    ensures { OnOk result
        (text.new ≡ text.old ++ print (drawn_chain_lines model.now look name.now reaction.now)) }
{
    put_open(text, name, look)?;
    put_shown(text, model, places, look, name, reaction)?;
    put_line(text, &[Piece::Fixed(b"</g>")])
}

/// Puts the first lines of a chain: the one that opens it, and the one of its colour beside its
/// name.
fn put_open(text: &mut Text, name: &Name, look: Look) -> Result<(), NoMemory>
    requires { IsLook look }
    ensures { OnOk result (text.new ≡ text.old ++ print (open_lines name.now look)) }
{
    put_group(text, name, look)?;
    put_line(
        text,
        &[
            Piece::Fixed(b"<path class=\"w\" d=\"M160 "),
            Piece::Number(look.y + 185),
            Piece::Fixed(b"h90\"/>"),
        ],
    )
}

/// Puts the line that opens a chain.
fn put_group(text: &mut Text, name: &Name, look: Look) -> Result<(), NoMemory>
    ensures { OnOk result (text.new ≡ text.old ++ print (drawn_group_line name.now look ∷ [])) }
{
    put_line(
        text,
        &[
            Piece::Fixed(b"<g id=\"chain-"),
            Piece::Name(name.as_slice()),
            Piece::Fixed(b"\" class=\"c c"),
            Piece::Number(look.colour),
            Piece::Fixed(b"\">"),
        ],
    )
}

/// Puts the lines of the longest reaction of a chain, or the line that says that there is none.
fn put_shown(
    text: &mut Text,
    model: &ValidModel,
    places: &Places,
    look: Look,
    name: &Name,
    reaction: &Option<Reaction>,
) -> Result<(), NoMemory>
    requires places { ArePlaces model.now places.now }
    requires look { IsLook look }
    requires drawable { IsDrawableReaction model.now reaction.now }
    ensures { OnOk result
        (text.new ≡ text.old ++ print (shown_lines model.now look name.now reaction.now)) }
{
    match reaction {
        Some(reaction) => put_reaction(text, model, places, look, name, reaction),
        None => put_none(text, look),
    }
}

/// Puts the line that says that the run has no complete reaction of the chain.
fn put_none(text: &mut Text, look: Look) -> Result<(), NoMemory>
    requires { IsLook look }
    ensures { OnOk result (text.new ≡ text.old ++ print (drawn_none_line look ∷ [])) }
{
    put_line(
        text,
        &[
            Piece::Fixed(b"<text class=\"m\" x=\"2080\" y=\""),
            Piece::Number(look.y + 230),
            Piece::Fixed(b"\">no complete reaction in this run</text>"),
        ],
    )
}

/// Puts the lines of a reaction, if all of it lies in the window, or the line that says that it
/// doesn't.
fn put_reaction(
    text: &mut Text,
    model: &ValidModel,
    places: &Places,
    look: Look,
    name: &Name,
    reaction: &Reaction,
) -> Result<(), NoMemory>
    requires places { ArePlaces model.now places.now }
    requires look { IsLook look }
    requires stops { AreStopsOf model.now reaction.now.stops }
    ensures { OnOk result
        (text.new ≡ text.old ++ print (reaction_lines model.now look name.now reaction.now)) }
{
    if look.window.from <= reaction.from && reaction.to <= look.window.to {
        put_inside(text, model, places, look, name, reaction)
    } else {
        put_outside(text, look, reaction)
    }
}

/// Puts the line that says that a reaction doesn't lie in the window: its length and its ends.
fn put_outside(text: &mut Text, look: Look, reaction: &Reaction) -> Result<(), NoMemory>
    requires { IsLook look }
    ensures { OnOk result (text.new ≡ text.old ++ print (outside_line look reaction.now ∷ [])) }
{
    put_line(
        text,
        &[
            Piece::Fixed(b"<text class=\"m\" x=\"2080\" y=\""),
            Piece::Number(look.y + 230),
            Piece::Fixed(b"\">reaction "),
            Piece::Number(reaction.to.saturating_sub(reaction.from)),
            Piece::Fixed(b" from "),
            Piece::Number(reaction.from),
            Piece::Fixed(b" to "),
            Piece::Number(reaction.to),
            Piece::Fixed(b", not in this window</text>"),
        ],
    )
}
