ghost use Rattle.std.specs.Prelude.{◌≡◌, ◌≢◌, ℕ, ◌^◌, ◌<◌, ◌≤◌, false, List, ◌∷◌, ◌++◌, IfSome, IfNone, decimal};
ghost use Rattle.std.specs.Option.{SomeIff};
ghost use Rattle.std.specs.Str.Parse.{IsNumeral, digits_value};
ghost use Rattle.cl_text.specs.{Decimal.IsDecimal, Line.{first_word, is_graphic}};

/// Reads a word as a decimal number of at most `most`: digits without a leading zero, except `0`
/// itself. Returns `None` exactly where the word isn't such a number.
#[tactic(auto, using(crate::proofs::DecimalLemmas::printed_decimals))]
pub fn read_decimal(word: &[u8], most: u64) -> Option<u64>
    ensures some { IfSome result (λ n. (word.now ≡ decimal n) × (n ≤ most)) }
    ensures none { IfNone result ((n : ℕ) → n ≤ most → word.now ≢ decimal n) }
    ensures printed { (n : ℕ) → n ≤ most → word.now ≡ decimal n → result ≡ Some n }
{
    if word.len() > 1 && word[0] == b'0' {
        return None;
    }
    let number = number_of_digits(word)?;
    if number <= most { Some(number) } else { None }
}

/// Reads one or more digits, with leading zeros or without, as a number. Returns `None` exactly
/// where the slice is empty or holds another byte, or the number doesn't fit 64 bits.
fn number_of_digits(digits: &[u8]) -> Option<u64>
    ensures { let number = digits_value 10 digits.now in
        SomeIff result (IsNumeral 10 digits.now × (number < 2 ^ 64)) number }
{
    if digits.is_empty() {
        return None;
    }
    let mut number: u64 = 0;
    for digit in digits {
        if !digit.is_ascii_digit() {
            return None;
        }
        number = number
            .checked_mul(10)?
            .checked_add(u64::from(*digit - b'0'))?;
    }
    Some(number)
}

/// A word is a decimal of the grammar for a number below 2^64 exactly where it equals that number
/// as printed.
pub fn decimal_grammar()
    ensures printed { (word : List ℕ) (n : ℕ) → n < 2 ^ 64 → word ≡ decimal n → IsDecimal word n }
    ensures only { (word : List ℕ) (n : ℕ) → n < 2 ^ 64 → IsDecimal word n → word ≡ decimal n }
{}

/// Two numbers below 2^64 that are printed alike are equal, and a byte that isn't a word byte ends
/// a printed number.
pub fn printed_numbers_are_apart()
    ensures numbers { (m n : ℕ) → m < 2 ^ 64 → n < 2 ^ 64 → decimal m ≡ decimal n → m ≡ n }
    ensures words { (n : ℕ) (rest : List ℕ) (byte : ℕ) → n < 2 ^ 64 → is_graphic byte ≡ false →
        first_word (decimal n ++ byte ∷ rest) ≡ decimal n }
{}
