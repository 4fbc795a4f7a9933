//! The words on a reaction, in the row of its chain.
ghost use Rattle.std.specs.Prelude.{◌≡◌, ◌+◌, ◌<◌, ◌++◌, [], ◌∷◌, length, OnOk};
ghost use Rattle.cl_picture.specs.Pieces.{pieces_text, print};
ghost use Rattle.cl_draw.specs.{ChainLines.{words_place, drawn_words_line, words_rest}, Inner.Looks.{IsLook, AreStopsOf}};

use crate::chain_lines::Look;
use crate::stops::{Reaction, Stop, first_stop, last_stop};
use cl_model::ValidModel;
use cl_picture::{Piece, put_line, put_pieces};
use cl_text::Text;
use cl_time::NoMemory;

/// Puts the line of the words on a reaction, on the side where there is room for them.
pub(crate) fn put_words(
    text: &mut Text,
    model: &ValidModel,
    look: Look,
    reaction: &Reaction,
) -> Result<(), NoMemory>
    requires look { IsLook look }
    requires stops { AreStopsOf model.now reaction.now.stops }
    ensures { OnOk result
        (text.new ≡ text.old ++ print (drawn_words_line model.now look reaction.now ∷ [])) }
{
    let first = first_stop(reaction);
    let last = last_stop(reaction);
    put_words_place(text, look, reaction)?;
    put_words_rest(text, model, look, reaction, &first, &last)
}

/// Puts the words on a reaction with this first and this last stop, behind their place: its length,
/// the job that just misses the input, and the job of the output.
fn put_words_rest(
    text: &mut Text,
    model: &ValidModel,
    look: Look,
    reaction: &Reaction,
    first: &Stop,
    last: &Stop,
) -> Result<(), NoMemory>
    requires look { IsLook look }
    requires first { first.now.task < length model.now.tasks }
    requires last { last.now.task < length model.now.tasks }
    ensures { OnOk result
        (text.new ≡ text.old ++ print (words_rest model.now look reaction.now first.now last.now ∷ [])) }
{
    put_line(
        text,
        &[
            Piece::Number(look.y + 210),
            Piece::Fixed(b"\"><tspan>reaction "),
            Piece::Number(reaction.to.saturating_sub(reaction.from)),
            Piece::Fixed(b"</tspan> input just missed by "),
            Piece::Name(model.task(first.task).name.as_slice()),
            Piece::Fixed(b":"),
            Piece::Number(first.job.saturating_sub(1)),
            Piece::Fixed(b", output by "),
            Piece::Name(model.task(last.task).name.as_slice()),
            Piece::Fixed(b":"),
            Piece::Number(last.job),
            Piece::Fixed(b"</text>"),
        ],
    )
}

/// Puts where the words on a reaction begin or, where there is more room on the other side, where
/// they end.
fn put_words_place(text: &mut Text, look: Look, reaction: &Reaction) -> Result<(), NoMemory>
    requires { IsLook look }
    ensures { OnOk result (text.new ≡ text.old ++ pieces_text (words_place look reaction.now)) }
{
    let from = look.window.x(reaction.from);
    let to = look.window.x(reaction.to);
    if from + to <= 14_000 {
        put_pieces(
            text,
            &[
                Piece::Fixed(b"<text x=\""),
                Piece::Number(from + 60),
                Piece::Fixed(b"\" y=\""),
            ],
        )
    } else {
        put_pieces(
            text,
            &[
                Piece::Fixed(b"<text class=\"z\" x=\""),
                Piece::Number(to.saturating_sub(60)),
                Piece::Fixed(b"\" y=\""),
            ],
        )
    }
}
