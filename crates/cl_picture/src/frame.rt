//! The frame of a picture: its first lines, and its last ones.
ghost use Rattle.std.specs.Prelude.{◌≡◌, ◌++◌, [], ◌∷◌, OnOk, OnErr};
ghost use Rattle.cl_text.specs.Beginnings.{PutsPart};
ghost use Rattle.cl_picture.specs.{Pieces.print, Frame.{root_line, picture_title_line, style_lines, begin, shift_line, end}};

use crate::pieces::{Piece, put_line};
use crate::window::Window;
use cl_text::Text;
use cl_time::NoMemory;

/// The style sheet of a picture: its sizes, and its colours for light and for dark mode.
pub const STYLE: &[u8] =
    b"text{font:120px system-ui,-apple-system,\"Segoe UI\",Roboto,\"DejaVu Sans\",sans-serif;fill:#24292f}\n\
.n{font-size:135px}.k{font-size:100px}.x{text-anchor:middle}.z{text-anchor:end}\n\
.h{font-weight:600}tspan{font-weight:700}.h,.m,.x,.k{fill:#57606a}\n\
.b{fill:#fff}.s{fill:#f6f8fa}.g{stroke:#d8dee4;stroke-width:8}\n\
.r0{fill:#56b4e9;opacity:.3}.e0{fill:#56b4e9;rx:15px}.e1{fill:#0072b2;rx:15px}.e2{fill:#d55e00;rx:15px}\n\
.a{fill:#6e7781}.j{fill:none;stroke:#6e7781;stroke-width:10}\n\
.c path,.q,.f{fill:none}.c .l,.q,.i{stroke-width:24}.c .v{stroke-width:12;stroke-dasharray:36 28}\n\
.c .o{stroke:#fff;stroke-width:52}.w{stroke-width:60}.q{rx:40px}.i{fill:#fff}.f{stroke-width:50}\n\
.c text{stroke:#f6f8fa;stroke-width:30;paint-order:stroke}\n\
.c0{stroke:#009e73}.c1{stroke:#e69f00}.c2{stroke:#000}.c3{stroke:#cc79a7}\n\
svg:has(g[id]:hover) g[id]:not(:hover){opacity:.1}\n\
@media(prefers-color-scheme:dark){\n\
text{fill:#e6edf3}.h,.m,.x,.k{fill:#9da7b1}.b,.i{fill:#0d1117}.s{fill:#161b22}.g{stroke:#30363d}\n\
.a{fill:#9da7b1}.j{stroke:#9da7b1}.c .o{stroke:#0d1117}.c text{stroke:#161b22}.c2{stroke:#fff}\n\
}";

/// The legend of a picture, which shows what its bars and marks mean.
pub const LEGEND: &[u8] =
    b"<rect class=\"e0\" x=\"2000\" y=\"170\" width=\"240\" height=\"140\"/><text x=\"2300\" y=\"282\">runs</text>\n\
<rect class=\"e1\" x=\"2720\" y=\"170\" width=\"240\" height=\"140\"/><text x=\"3020\" y=\"282\">runs, uninterruptible</text>\n\
<rect class=\"e2\" x=\"4480\" y=\"170\" width=\"240\" height=\"140\"/><text x=\"4780\" y=\"282\">runs past its deadline</text>\n\
<rect class=\"r0\" x=\"6240\" y=\"170\" width=\"240\" height=\"140\"/><text x=\"6540\" y=\"282\">waits</text>\n\
<path class=\"a\" d=\"M7040 218l-28 52h56zM8230 270l-28-52h56z\"/><text class=\"k\" x=\"7084\" y=\"294\">3</text>\n\
<text x=\"7180\" y=\"282\">arrival of job 3</text><text x=\"8310\" y=\"282\">deadline</text>\n\
<text x=\"9100\" y=\"282\">input</text><text x=\"9900\" y=\"282\">read to write</text><text x=\"10950\" y=\"282\">output</text>\n\
<g class=\"c c0\"><circle class=\"i\" cx=\"9010\" cy=\"240\" r=\"45\"/><circle class=\"f\" cx=\"10860\" cy=\"240\" r=\"25\"/>\n\
<rect class=\"q\" x=\"9600\" y=\"150\" width=\"240\" height=\"180\"/></g>";

/// Appends the first lines of a picture to a text: of a window of a run that has `ticks` ticks, in
/// a picture of this height. They open the picture and hold its title, its style sheet and its
/// background.
///
/// `NoMemory` comes where there is no memory for the longer text. After `NoMemory` the text ends
/// with a prefix of the lines.
pub fn put_begin(text: &mut Text, window: Window, ticks: u64, height: u64) -> Result<(), NoMemory>
    ensures ok { OnOk result (text.new ≡ text.old ++ print (begin window ticks height)) }
    ensures err { OnErr result (PutsPart text.old text.new (print (begin window ticks height))) }
{
    put_root(text, height)?;
    put_title(text, window, ticks)?;
    put_style(text)?;
    put_line(
        text,
        &[
            Piece::Fixed(b"<rect class=\"b\" width=\"12000\" height=\""),
            Piece::Number(height),
            Piece::Fixed(b"\"/>"),
        ],
    )
}

/// Puts the line that opens a picture.
fn put_root(text: &mut Text, height: u64) -> Result<(), NoMemory>
    ensures ok { OnOk result (text.new ≡ text.old ++ print (root_line height ∷ [])) }
    ensures err { OnErr result (PutsPart text.old text.new (print (root_line height ∷ []))) }
{
    put_line(
        text,
        &[
            Piece::Fixed(b"<svg xmlns=\"http://www.w3.org/2000/svg\" width=\"1200\" height=\""),
            Piece::Number(height / 10),
            Piece::Fixed(b"\" viewBox=\"0 0 12000 "),
            Piece::Number(height),
            Piece::Fixed(b"\">"),
        ],
    )
}

/// Puts the title of a picture.
fn put_title(text: &mut Text, window: Window, ticks: u64) -> Result<(), NoMemory>
    ensures ok { OnOk result (text.new ≡ text.old ++ print (picture_title_line window ticks ∷ [])) }
    ensures err { OnErr result
        (PutsPart text.old text.new (print (picture_title_line window ticks ∷ []))) }
{
    put_line(
        text,
        &[
            Piece::Fixed(b"<title>chainlat: ticks "),
            Piece::Number(window.from),
            Piece::Fixed(b" to "),
            Piece::Number(window.to),
            Piece::Fixed(b" of "),
            Piece::Number(ticks),
            Piece::Fixed(b"</title>"),
        ],
    )
}

/// Puts the style sheet of a picture.
fn put_style(text: &mut Text) -> Result<(), NoMemory>
    ensures ok { OnOk result (text.new ≡ text.old ++ print style_lines) }
    ensures err { OnErr result (PutsPart text.old text.new (print style_lines)) }
{
    put_line(text, &[Piece::Fixed(b"<style>")])?;
    put_line(text, &[Piece::Fixed(STYLE)])?;
    put_line(text, &[Piece::Fixed(b"</style>")])
}

/// Appends the last lines of a picture to a text: the legend, at the height `bottom`, and the end
/// of the picture.
///
/// `NoMemory` comes where there is no memory for the longer text. After `NoMemory` the text ends
/// with a prefix of the lines.
pub fn put_end(text: &mut Text, bottom: u64) -> Result<(), NoMemory>
    ensures ok { OnOk result (text.new ≡ text.old ++ print (end bottom)) }
    ensures err { OnErr result (PutsPart text.old text.new (print (end bottom))) }
{
    put_shift(text, bottom)?;
    put_line(text, &[Piece::Fixed(LEGEND)])?;
    put_line(text, &[Piece::Fixed(b"</g>")])?;
    put_line(text, &[Piece::Fixed(b"</svg>")])
}

/// Appends to a text the line that opens what is drawn from the height `y` on.
///
/// `NoMemory` comes where there is no memory for the longer text. After `NoMemory` the text ends
/// with a prefix of the line.
pub fn put_shift(text: &mut Text, y: u64) -> Result<(), NoMemory>
    ensures ok { OnOk result (text.new ≡ text.old ++ print (shift_line y ∷ [])) }
    ensures err { OnErr result (PutsPart text.old text.new (print (shift_line y ∷ []))) }
{
    put_line(
        text,
        &[
            Piece::Fixed(b"<g transform=\"translate(0 "),
            Piece::Number(y),
            Piece::Fixed(b")\">"),
        ],
    )
}
