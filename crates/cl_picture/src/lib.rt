//! Pictures as SVG: lines of pieces, the lengths at which ticks lie, the bars of a row, the axis,
//! and the frame of a picture.
#![tactic(auto)]

mod axis;
mod bars;
mod frame;
mod item;
pub mod laws;
mod pieces;
mod window;

pub use axis::put_axis;
pub use bars::bars_of;
pub use frame::{put_begin, put_end, put_shift};
pub use item::{Bar, End, Item, Rest};
pub use pieces::{Piece, put_line, put_pieces};
pub use window::{MOST_WINDOW, Window};
