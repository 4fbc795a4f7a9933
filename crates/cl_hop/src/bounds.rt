//! The bounds of a chain. Times are in ticks.
ghost use Rattle.std.specs.Prelude.{◌≡◌, pos};
ghost use Rattle.cl_hop.specs.Sums.{IsBound};

use std::marker::Model;

/// Bounds on the reaction, the age and the reduced age of the complete job chains of a chain, or of
/// a part of one, and on its delay, in ticks.
#[derive(Clone, Copy, PartialEq, Eq)]
pub struct Bounds {
    reaction: u64,
    age: u64,
    reduced: u64,
    delay: u64,
}

impl Model for Bounds {
    ghost use Rattle.cl_hop.specs.Bounds.{Lengths};

    ghost Value = { Lengths };

    ghost view = { λ a. record { reaction = a.reaction; age = a.age; reduced = a.reduced; delay = a.delay } };

    ghost inverse = { λ b. record { reaction = b.reaction; age = b.age; reduced = b.reduced; delay = b.delay } };
}

/// Turns a sum into ticks.
fn ticks(sum: i128) -> u64
    requires { IsBound sum }
    ensures { pos result ≡ sum }
{
    sum as u64
}

impl Bounds {
    /// Makes bounds of these numbers, in ticks. That no length exceeds them is for the caller to
    /// prove.
    pub fn new(reaction: u64, age: u64, reduced: u64, delay: u64) -> Bounds
        ensures { result ≡ record { reaction = reaction; age = age; reduced = reduced; delay = delay } }
    {
        Bounds {
            reaction,
            age,
            reduced,
            delay,
        }
    }

    /// Makes bounds of these sums.
    pub(crate) fn of_sums(reaction: i128, age: i128, reduced: i128, delay: i128) -> Bounds
        requires reaction { IsBound reaction }
        requires age { IsBound age }
        requires reduced { IsBound reduced }
        requires delay { IsBound delay }
        ensures reaction { pos result.reaction ≡ reaction }
        ensures age { pos result.age ≡ age }
        ensures reduced { pos result.reduced ≡ reduced }
        ensures delay { pos result.delay ≡ delay }
    {
        Bounds::new(ticks(reaction), ticks(age), ticks(reduced), ticks(delay))
    }

    /// Returns the bound on the reaction: at least that of each complete forward chain.
    pub fn reaction(&self) -> u64
        ensures { result ≡ self.now.reaction }
    {
        self.reaction
    }

    /// Returns the bound on the age: at least that of each complete backward chain.
    pub fn age(&self) -> u64
        ensures { result ≡ self.now.age }
    {
        self.age
    }

    /// Returns the bound on the reduced age: at least that of each complete backward chain.
    pub fn reduced(&self) -> u64
        ensures { result ≡ self.now.reduced }
    {
        self.reduced
    }

    /// Returns the bound on the delay: at least that of each chain that takes an event on.
    pub fn delay(&self) -> u64
        ensures { result ≡ self.now.delay }
    {
        self.delay
    }
}
