ghost use Rattle.std.specs.Prelude.{ℕ, ◌*◌, ◌<◌, ◌≤◌};

/// Divides `a` by `b` and rounds up: finds the least `q` for which `q * b` is at least `a`.
///
/// `b` isn't 0. It is defined at every `a`, since no step of it exceeds 64 bits. Takes no memory.
pub fn ceil_div(a: u64, b: u64) -> u64
    requires { 0 < b }
    ensures enough { a ≤ result * b }
    ensures least { (q : ℕ) → a ≤ q * b → result ≤ q }
{
    a.div_ceil(b)
}
