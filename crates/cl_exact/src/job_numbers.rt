//! The numbers of the jobs of a job chain.
ghost use Rattle.std.specs.Prelude.{◌≡◌, ◌<◌, ◌≤◌, [], ◌∷◌, ◌++◌, length, nat_eq};
ghost use Rattle.std.specs.Cmp.{partial_equiv_from_equiv};
ghost use Rattle.std.specs.Cmp.Lexicographic.{pointwise, nat_list_eq_equiv};

use arrayvec::ArrayVec;
use cl_model::MOST_STEPS;
use std::fmt;
use std::marker::Model;

/// One job number for each group of a chain, in order.
#[derive(Drop)]
pub struct JobNumbers {
    numbers: ArrayVec<u64, MOST_STEPS>,
}

impl Model for JobNumbers {
    ghost use Rattle.std.specs.Prelude.{List, ℕ};

    ghost Value = { List ℕ };

    ghost view = { λ n. n.numbers.items };
}

impl JobNumbers {
    /// Copies the numbers of a slice, at most `MOST_STEPS`.
    pub(crate) fn of(numbers: &[u64]) -> JobNumbers
        requires { length numbers.now ≤ MOST_STEPS }
        ensures { result ≡ numbers.now }
    {
        JobNumbers {
            numbers: ArrayVec::try_from(numbers).unwrap(),
        }
    }

    /// Returns the numbers, that of the first group first.
    pub fn as_slice(&self) -> &[u64]
        ensures numbers { result.now ≡ self.now }
        ensures count { length result.now ≤ MOST_STEPS }
    {
        self.numbers.as_slice()
    }

    /// Makes an equal copy. Takes no memory.
    pub fn copy(&self) -> JobNumbers
        ensures { result ≡ self.now }
    {
        JobNumbers::of(self.as_slice())
    }
}

impl PartialEq for JobNumbers {
    ghost eq = { pointwise nat_eq };

    ghost laws = { partial_equiv_from_equiv nat_list_eq_equiv };

    fn eq(&self, other: &JobNumbers) -> bool {
        self.as_slice() == other.as_slice()
    }
}

impl Eq for JobNumbers {
    ghost laws = { nat_list_eq_equiv };
}

impl fmt::Debug for JobNumbers {
    fn fmt<W: fmt::Write>(&self, f: &mut fmt::Formatter<W>) -> fmt::Result {
        fmt::Debug::fmt(self.as_slice(), f)
    }
}
