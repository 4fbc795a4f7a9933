//! The exact lengths of a chain. Times are in ticks.
ghost use Rattle.std.specs.Prelude.{◌≡◌};

use crate::witness::Witness;
use std::marker::Model;

/// The exact lengths of a chain, or of a part of one, each with its witness. Only `exact`,
/// `exact_of_groups` and `copy` make one.
#[derive(PartialEq, Eq, Drop)]
pub struct ExactLengths {
    pub(crate) reaction: Witness,
    pub(crate) age: Witness,
    pub(crate) reduced: Witness,
}

impl Model for ExactLengths {
    ghost use Rattle.cl_exact.specs.ExactLengths.{Witnesses};

    ghost Value = { Witnesses };

    ghost view = { λ a. record { reaction = a.reaction; age = a.age; reduced = a.reduced } };

    ghost inverse = { λ b. record { reaction = b.reaction; age = b.age; reduced = b.reduced } };
}

impl ExactLengths {
    /// Returns the witness of the longest reaction, from the read of the job before the first to
    /// the write of the last.
    pub fn reaction(&self) -> &Witness
        ensures { result.now ≡ self.now.reaction }
    {
        &self.reaction
    }

    /// Returns the witness of the greatest age, from the first read to the write of the job after
    /// the last.
    pub fn age(&self) -> &Witness
        ensures { result.now ≡ self.now.age }
    {
        &self.age
    }

    /// Returns the witness of the greatest reduced age, from the first read to the write of the
    /// last job.
    pub fn reduced(&self) -> &Witness
        ensures { result.now ≡ self.now.reduced }
    {
        &self.reduced
    }

    /// Makes an equal copy, with equal witnesses. Takes no memory.
    pub fn copy(&self) -> ExactLengths
        ensures { result ≡ self.now }
    {
        ExactLengths {
            reaction: self.reaction.copy(),
            age: self.age.copy(),
            reduced: self.reduced.copy(),
        }
    }
}
