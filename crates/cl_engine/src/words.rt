//! The words of a command: the word at an index, and the numbers that words spell.
ghost use Rattle.std.specs.Prelude.{◌≡◌, ◌<◌, ◌≤◌, drop, length};
ghost use Rattle.cl_engine.specs.{Files.word, Words.{number_within, two_numbers}};

use cl_io::Words;
use cl_text::read_decimal;

/// The least and the greatest value of a number among the words.
#[derive(Clone, Copy, PartialEq, Eq)]
pub struct Bounds {
    pub least: u64,
    pub most: u64,
}

/// Returns the word at index `place`, from 0 for the verb.
pub fn word_at(words: &Words, place: usize) -> &str
    requires { place < length words.now }
    ensures { result.now ≡ word words.now place }
{
    words.at(place).unwrap()
}

/// Reads the number that the word at index `place` spells in decimal, without leading zeros. `None`
/// where it spells none or one outside `bounds`. Takes no memory.
pub fn number_at(words: &Words, place: usize, bounds: Bounds) -> Option<u64>
    requires { place < length words.now }
    ensures { result ≡ number_within bounds (word words.now place) }
{
    match read_decimal(word_at(words, place).as_bytes(), bounds.most) {
        Some(number) if bounds.least <= number => Some(number),
        _ => None,
    }
}

/// Reads the last two words, at the indices `place` and `place + 1`, as two decimal numbers, the
/// first within `one` and the second within `other`. `None` where a word spells no such number, or
/// where there are fewer or more words. Takes no memory.
pub fn two_numbers(words: &Words, place: usize, one: Bounds, other: Bounds) -> Option<(u64, u64)>
    requires { place ≤ 3 }
    ensures { result ≡ two_numbers one other (drop place words.now) }
{
    if words.len() != place + 2 {
        return None;
    }
    let first = number_at(words, place, one)?;
    let second = number_at(words, place + 1, other)?;
    Some((first, second))
}
