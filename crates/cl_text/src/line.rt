ghost use Rattle.std.specs.Prelude.{◌≡◌, ℕ, ◌+◌, ◌^◌, ◌<◌, ◌≤◌, ◌↔◌, false, List, [], ◌∷◌, ◌++◌, length, drop, slice_range, Some, None, IfSome, IfNone, IsNone, Contains, decimal, option_map};
ghost use Rattle.std.specs.List.{AllPass};
ghost use Rattle.cl_text.specs.Line.{first_word, is_graphic, line_end};

use memchr::memchr;

/// Finds the index of the first byte 0x0A at or after `from`, where the line that begins at `from`
/// ends. Returns `None` exactly where there is no such byte.
pub fn next_line(text: &[u8], from: usize) -> Option<usize>
    requires { from ≤ length text.now }
    ensures place { result ≡ option_map (λ k. from + k) (line_end (drop from text.now)) }
    ensures within { IfSome result (λ end. (from ≤ end) × (end < length text.now)) }
    ensures parts { IfSome result (λ end.
        drop from text.now ≡ slice_range text.now from end ++ 0x0A ∷ drop (end + 1) text.now) }
    ensures first { IfSome result (λ end. ¬ Contains (slice_range text.now from end) 0x0A) }
    ensures none { IfNone result (¬ Contains (drop from text.now) 0x0A) }
{
    let length = memchr(b'\n', &text[from..])?;
    Some(from + length)
}

/// Finds where the longest run of bytes 0x21 to 0x7E from `from` ends, and so the word that begins
/// there: the index after its last byte. Returns `None` exactly where that run is empty.
pub fn next_word(line: &[u8], from: usize) -> Option<usize>
    requires { from ≤ length line.now }
    ensures word { IfSome result
        (λ end. slice_range line.now from end ≡ first_word (drop from line.now)) }
    ensures within { IfSome result (λ end. (from < end) × (end ≤ length line.now)) }
    ensures none { IsNone result ↔ (first_word (drop from line.now) ≡ []) }
{
    match word_length(&line[from..]) {
        0 => None,
        length => Some(from + length),
    }
}

/// Counts the bytes of the word that the text begins with, 0 where it begins with none.
fn word_length(text: &[u8]) -> usize
    ensures { result ≡ length (first_word text.now) }
{
    text.iter()
        .take_while(|byte| byte.is_ascii_graphic())
        .count()
}

/// A line without a byte 0x0A is found whole where that byte follows it, and no end of a line is
/// found in a text without that byte. A word holds no byte 0x0A.
pub fn line_grammar()
    ensures ended { (line rest : List ℕ) → ¬ Contains line 0x0A →
        line_end (line ++ 0x0A ∷ rest) ≡ Some (length line) }
    ensures unended { (rest : List ℕ) → ¬ Contains rest 0x0A → line_end rest ≡ None }
    ensures words { (word : List ℕ) → AllPass is_graphic word → ¬ Contains word 0x0A }
{}

/// A run of word bytes is found as a whole word where another byte follows it and at the end of a
/// text. The decimals of numbers below 2^64 are runs of word bytes.
pub fn word_grammar()
    ensures ended { (word rest : List ℕ) (byte : ℕ) → AllPass is_graphic word
        → is_graphic byte ≡ false →
        first_word (word ++ byte ∷ rest) ≡ word }
    ensures last { (word : List ℕ) → AllPass is_graphic word → first_word word ≡ word }
    ensures decimals { (n : ℕ) → n < 2 ^ 64 → AllPass is_graphic (decimal n) }
{}

/// A line or a word in a text is found whole from where it begins, and the range of a piece of a
/// text is that piece.
pub fn found_in_a_text()
    ensures lines { (text before line rest : List ℕ) → text ≡ before ++ (line ++ 0x0A ∷ rest)
        → ¬ Contains line 0x0A →
        line_end (drop (length before) text) ≡ Some (length line) }
    ensures words { (text before word rest : List ℕ) (byte : ℕ)
        → text ≡ before ++ (word ++ byte ∷ rest) →
        AllPass is_graphic word → is_graphic byte ≡ false
        → first_word (drop (length before) text) ≡ word }
    ensures last { (text before word : List ℕ) → text ≡ before ++ word → AllPass is_graphic word →
        first_word (drop (length before) text) ≡ word }
    ensures piece { (text before piece rest : List ℕ) → text ≡ before ++ (piece ++ rest) →
        slice_range text (length before) (length before + length piece) ≡ piece }
{}
