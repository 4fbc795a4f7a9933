ghost use Rattle.std.specs.Prelude.{◌≡◌, ℕ};
ghost use Rattle.std.specs.Int.{IsGcd};
ghost use Rattle.cl_time.specs.Divisors.{IsLcm};

/// The greatest common divisor of two numbers is unique.
pub fn one_gcd()
    ensures { (a b g h : ℕ) → IsGcd a b g → IsGcd a b h → g ≡ h }
{}

/// The least common multiple of two numbers is unique.
pub fn one_lcm()
    ensures { (a b m n : ℕ) → IsLcm a b m → IsLcm a b n → m ≡ n }
{}
