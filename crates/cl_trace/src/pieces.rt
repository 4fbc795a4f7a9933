//! Reading the pieces of a line: fixed words, numbers and names. Each call returns the rest of the
//! text.
ghost use Rattle.std.specs.Prelude.{◌≡◌, ◌≢◌, ◌↔◌, ◌^◌, ◌<◌, ◌≤◌, ℕ, List, [], ◌∷◌, ◌++◌, false, length, slice_index, All, IsTrue, Some, None, IfSome, IfNone, decimal};
ghost use Rattle.cl_text.specs.Line.{first_word, is_graphic};
ghost use Rattle.cl_model.specs.{Name.IsName, ByNumber.{task_at, task_named}, Validity.IsValid};
ghost use Rattle.cl_trace.specs.{Trace.number_text, Inner.Pieces.{IsRead, AreDigitsOf}};

use crate::guesses::Guesses;
use cl_model::{Name, ValidModel};
use cl_text::next_word;

/// Strips the piece that the text begins with, and returns the rest. Returns `None` exactly where
/// the text doesn't begin with it.
pub(crate) fn after<'a>(text: &'a [u8], piece: &[u8]) -> Option<&'a [u8]>
    ensures some { IfSome result (λ rest. text.now ≡ piece.now ++ rest.now) }
    ensures none { IfNone result ((rest : List ℕ) → text.now ≢ piece.now ++ rest) }
{
    text.strip_prefix(piece)
}

/// Splits off the word that the text begins with, and returns it and the rest. Returns `None` where
/// the text begins with no word.
pub(crate) fn word_after(text: &[u8]) -> Option<(&[u8], &[u8])>
    ensures some { IfSome result (λ read. text.now ≡ read.0.now ++ read.1.now) }
    ensures word { IfSome result (λ read. read.0.now ≡ first_word text.now) }
    ensures none { IfNone result (first_word text.now ≡ []) }
{
    let end = next_word(text, 0)?;
    Some((&text[..end], &text[end..]))
}

/// Strips the byte that the text begins with, and returns the rest. Returns `None` exactly where
/// the text doesn't begin with it.
pub(crate) fn byte_after(text: &[u8], byte: u8) -> Option<&[u8]>
    ensures some { IfSome result (λ rest. text.now ≡ byte ∷ rest.now) }
    ensures none { IfNone result ((rest : List ℕ) → text.now ≢ byte ∷ rest) }
{
    let (first, rest) = text.split_first()?;
    if *first == byte { Some(rest) } else { None }
}

/// Reads all digits that the text begins with as a number, and returns it and how many there are.
/// Returns `None` where there are more than 18 or the text has fewer than 19 bytes: a loop of a
/// fixed number of steps is unrolled.
fn few_digits_of(text: &[u8]) -> Option<(u64, usize)>
    ensures { IfSome result (λ read. AreDigitsOf text.now read.1 read.0) }
{
    if text.len() < 19 {
        return None;
    }
    let mut number: u64 = 0;
    for (count, byte) in text[..19].iter().enumerate() {
        if !byte.is_ascii_digit() {
            return Some((number, count));
        }
        number = number * 10 + u64::from(*byte - b'0');
    }
    None
}

/// Reads all digits that the text begins with as a number, however many there are, and returns it
/// and how many there are. Returns `None` where the number doesn't fit 64 bits.
fn many_digits_of(text: &[u8]) -> Option<(u64, usize)>
    ensures some { IfSome result (λ read. AreDigitsOf text.now read.1 read.0) }
    ensures none { IfNone result
        ((n byte : ℕ) (rest : List ℕ) → n < 2 ^ 64 → is_graphic byte ≡ false
        → text.now ≢ decimal n ++ byte ∷ rest) }
{
    let mut number: u64 = 0;
    for (count, byte) in text.iter().enumerate() {
        if !byte.is_ascii_digit() {
            return Some((number, count));
        }
        number = number
            .checked_mul(10)?
            .checked_add(u64::from(*byte - b'0'))?;
    }
    Some((number, text.len()))
}

/// Reads all digits that the text begins with as a number, and returns it and how many there are.
/// Returns `None` where the number doesn't fit 64 bits.
fn digits_of(text: &[u8]) -> Option<(u64, usize)>
    ensures some { IfSome result (λ read. AreDigitsOf text.now read.1 read.0) }
    ensures none { IfNone result
        ((n byte : ℕ) (rest : List ℕ) → n < 2 ^ 64 → is_graphic byte ≡ false
        → text.now ≢ decimal n ++ byte ∷ rest) }
{
    match few_digits_of(text) {
        Some(read) => Some(read),
        None => many_digits_of(text),
    }
}

/// Checks whether the first `count` bytes of the text, which are digits, are a number as it is
/// printed: at least one digit, and no further one after a leading zero.
fn are_printed(text: &[u8], count: usize) -> bool
    requires { count ≤ length text.now }
    ensures { IsTrue result ↔ ((0 < count) × (slice_index text.now 0 ≡ 48 → count ≡ 1)) }
{
    count == 1 || (count > 1 && text[0] != b'0')
}

/// Reads the number of at most `most`, after a blank, that the text begins with, and returns it and
/// the rest.
#[inline(always)]
pub(crate) fn number_after(text: &[u8], most: u64) -> Option<(u64, &[u8])>
    ensures some { IfSome result
        (λ read. (text.now ≡ number_text read.0 ++ read.1.now) × (read.0 ≤ most)) }
    ensures only { (n byte : ℕ) (rest : List ℕ) → n ≤ most → is_graphic byte ≡ false
        → text.now ≡ number_text n ++ byte ∷ rest
        → IsRead result n (byte ∷ rest) }
{
    let digits = byte_after(text, b' ')?;
    let (number, count) = digits_of(digits)?;
    if number <= most && are_printed(digits, count) {
        Some((number, &digits[count..]))
    } else {
        None
    }
}

/// Finds the task of the model that has a word as its name. Compares the word with the guess first,
/// since lines name the same tasks again and again.
fn task_of(model: &ValidModel, word: &[u8], guesses: &mut Guesses) -> Option<u32>
    requires { IsValid model.now }
    ensures within { IfSome result (λ task. task < length model.now.tasks) }
    ensures found { IfSome result (λ task. task_named model.now word.now ≡ Some task) }
    ensures none { IfNone result (IsName word.now → task_named model.now word.now ≡ None) }
{
    let guess = guesses.at(word);
    if guess < model.tasks() && model.task(guess).name.as_slice() == word {
        return Some(guess);
    }
    let name = Name::read(word)?;
    let task = model.task_named(&name)?;
    guesses.keep(word, task);
    Some(task)
}

/// Finds the task of the model that has the word at the start of the text as its name, and returns
/// it and the rest.
pub(crate) fn task_after<'a>(
    model: &ValidModel,
    text: &'a [u8],
    guesses: &mut Guesses,
) -> Option<(u32, &'a [u8])>
    requires { IsValid model.now }
    ensures within { IfSome result (λ read. read.0 < length model.now.tasks) }
    ensures some { IfSome result
        (λ read. text.now ≡ (task_at model.now read.0).name ++ read.1.now) }
    ensures only { (task byte : ℕ) (rest : List ℕ) → task < length model.now.tasks
        → IsName (task_at model.now task).name
        → is_graphic byte ≡ false → text.now ≡ (task_at model.now task).name ++ byte ∷ rest
        → IsRead result task (byte ∷ rest) }
{
    let (word, rest) = word_after(text)?;
    let task = task_of(model, word, guesses)?;
    Some((task, rest))
}
