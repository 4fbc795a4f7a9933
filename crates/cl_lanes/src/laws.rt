ghost use Rattle.std.specs.Prelude.{◌≡◌, ℕ, List};
ghost use Rattle.cl_lanes.specs.Gaps.{IsGreatest};

/// The greatest number of a list is unique.
pub fn one_greatest()
    ensures { (numbers : List ℕ) (a b : ℕ) → IsGreatest numbers a → IsGreatest numbers b → a ≡ b }
{}
