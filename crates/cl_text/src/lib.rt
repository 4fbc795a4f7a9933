#![tactic(auto)]
//! Texts of lines and words: decimals, where lines and words end, and a text that grows.

mod decimal;
mod fault;
mod line;
mod text;

pub use decimal::{decimal_grammar, printed_numbers_are_apart, read_decimal};
pub use fault::LinesFault;
pub use line::{found_in_a_text, line_grammar, next_line, next_word, word_grammar};
pub use text::Text;
