ghost use Rattle.std.specs.Prelude.{ℕ, ◌<◌, ◌≤◌, IfSome};
ghost use Rattle.std.specs.Int.{IsGcd};
ghost use Rattle.std.specs.Option.{SomeIff};
ghost use Rattle.cl_time.specs.Divisors.{IsLcm};

/// Finds the greatest common divisor of two numbers by Euclid's algorithm.
///
/// `gcd(0, 0)` is 0: every number divides 0, and 0 is the only number that all of them divide. It
/// is defined for all numbers and takes no memory.
pub fn gcd(a: u64, b: u64) -> u64
    ensures { IsGcd a b result }
{
    let mut x = a;
    let mut y = b;
    while y != 0 {
        let rest = x % y;
        x = y;
        y = rest;
    }
    x
}

/// Finds the least common multiple of two numbers, neither of them 0, if it is at most `limit`.
///
/// Returns `None` exactly where the least common multiple exceeds `limit`, and so wherever it does
/// not fit 64 bits. Takes no memory.
pub fn lcm_upto(a: u64, b: u64, limit: u64) -> Option<u64>
    requires a_positive { 0 < a }
    requires b_positive { 0 < b }
    ensures least { (m : ℕ) × IsLcm a b m × SomeIff result (m ≤ limit) m }
    ensures positive { IfSome result (λ m. 0 < m) }
{
    let cofactor = a / gcd(a, b);
    if cofactor <= limit / b {
        Some(cofactor * b)
    } else {
        None
    }
}
