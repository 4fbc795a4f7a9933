//! Lines of a picture, made of pieces: words of the format, numbers and names.
ghost use Rattle.std.specs.Prelude.{◌≡◌, ◌++◌, [], ◌∷◌, map, OnOk, OnErr};
ghost use Rattle.cl_text.specs.Beginnings.{PutsPart};
ghost use Rattle.cl_picture.specs.Pieces.{piece_of, piece_text, pieces_text, print};

use cl_text::Text;
use cl_time::NoMemory;

/// A piece of a line of a picture.
#[derive(Clone, Copy)]
pub enum Piece<'a> {
    /// Words of the format.
    Fixed(&'static [u8]),
    /// A number, in decimal.
    Number(u64),
    /// A name of the model.
    Name(&'a [u8]),
}

/// Appends a piece to a text. `NoMemory` leaves the text as it was.
fn put_piece(text: &mut Text, piece: &Piece<'_>) -> Result<(), NoMemory>
    ensures ok { OnOk result (text.new ≡ text.old ++ piece_text (piece_of piece.now)) }
    ensures err { OnErr result (PutsPart text.old text.new (piece_text (piece_of piece.now))) }
{
    match piece {
        Piece::Fixed(words) => text.put(words),
        Piece::Number(number) => text.put_number(*number),
        Piece::Name(name) => text.put(name),
    }
}

/// Appends pieces to a text, one after the other.
///
/// `NoMemory` comes where there is no memory for the longer text. After `NoMemory` the text ends
/// with a prefix of the pieces.
pub fn put_pieces(text: &mut Text, pieces: &[Piece<'_>]) -> Result<(), NoMemory>
    ensures ok { OnOk result (text.new ≡ text.old ++ pieces_text (map piece_of pieces.now)) }
    ensures err { OnErr result (PutsPart text.old text.new (pieces_text (map piece_of pieces.now))) }
{
    for piece in pieces {
        put_piece(text, piece)?;
    }
    Ok(())
}

/// Appends a line of pieces to a text, with its line break.
///
/// `NoMemory` comes where there is no memory for the longer text. After `NoMemory` the text ends
/// with a prefix of the line.
pub fn put_line(text: &mut Text, pieces: &[Piece<'_>]) -> Result<(), NoMemory>
    ensures ok { OnOk result (text.new ≡ text.old ++ print (map piece_of pieces.now ∷ [])) }
    ensures err { OnErr result (PutsPart text.old text.new (print (map piece_of pieces.now ∷ []))) }
{
    put_pieces(text, pieces)?;
    text.put(b"\n")
}
