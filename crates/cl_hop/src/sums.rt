//! Sums of hops, one group after the other. Times are in ticks.
ghost use Rattle.std.specs.Prelude.{◌≡◌, ℕ, ◌+◌, ◌*◌, ◌^◌, []};
ghost use Rattle.cl_stim.specs.Integers.{IsIntegerWithin};
ghost use Rattle.cl_hop.specs.Sums.{sums_with, sums_of, reaction_in, age_in, reduced_in, delay_in, HaveBounds, AreBoundsIn};

use crate::bounds::Bounds;
use crate::group_timing::GroupTiming;

/// The sums of the forward and of the backward hops between the first groups of a chain, and the
/// last of these groups.
#[derive(Clone, Copy)]
pub struct Sums {
    pub(crate) last: GroupTiming,
    pub(crate) forward: i128,
    pub(crate) backward: i128,
}

impl Sums {
    /// Returns the sums of the first group alone: it has no hops.
    pub fn new(first: GroupTiming) -> Sums
        ensures { result ≡ sums_of first [] }
    {
        Sums {
            last: first,
            forward: 0,
            backward: 0,
        }
    }

    /// Adds the hops from the last group to one more, which is then the last.
    pub fn with(self, next: GroupTiming) -> Sums
        requires forward { IsIntegerWithin (2 ^ 100) self.forward }
        requires backward { IsIntegerWithin (2 ^ 100) self.backward }
        ensures sums { result ≡ sums_with self next }
        ensures forward_near { (hops : ℕ) → IsIntegerWithin (hops * 2 ^ 65) self.forward
            → IsIntegerWithin ((hops + 1) * 2 ^ 65) result.forward }
        ensures backward_near { (hops : ℕ) → IsIntegerWithin (hops * 2 ^ 65) self.backward
            → IsIntegerWithin ((hops + 1) * 2 ^ 65) result.backward }
    {
        Sums {
            last: next,
            forward: self.forward + self.last.forward_hop(&next),
            backward: self.backward + self.last.backward_hop(&next),
        }
    }

    /// Computes how long it is from the read of the job before the first to the write of the last
    /// job.
    fn reaction(&self, first: &GroupTiming) -> i128
        requires { IsIntegerWithin (2 ^ 100) self.now.forward }
        ensures { result ≡ reaction_in first.now self.now }
    {
        i128::from(first.distance()) - i128::from(first.read())
            + self.forward
            + i128::from(self.last.write())
    }

    /// Computes how long it is from the read of the first job to the write of the last.
    fn reduced(&self, first: &GroupTiming) -> i128
        requires { IsIntegerWithin (2 ^ 100) self.now.backward }
        ensures sum { result ≡ reduced_in first.now self.now }
        ensures near { IsIntegerWithin (2 ^ 101) result }
    {
        i128::from(self.last.write()) - i128::from(first.read()) + self.backward
    }

    /// Computes how long it is from the read of the first job to the write of the job after the
    /// last.
    fn age(&self, first: &GroupTiming) -> i128
        requires { IsIntegerWithin (2 ^ 100) self.now.backward }
        ensures { result ≡ age_in first.now self.now }
    {
        i128::from(self.last.distance()) + self.reduced(first)
    }

    /// Computes how long it is from the arrival of the first job to the write of the last.
    fn delay(&self) -> i128
        requires { IsIntegerWithin (2 ^ 100) self.now.forward }
        ensures { result ≡ delay_in self.now }
    {
        self.forward + i128::from(self.last.write())
    }

    /// Computes the bounds of the groups, from the first of them.
    pub fn bounds(&self, first: &GroupTiming) -> Bounds
        requires forward { IsIntegerWithin (2 ^ 100) self.now.forward }
        requires backward { IsIntegerWithin (2 ^ 100) self.now.backward }
        requires bounds { HaveBounds first.now self.now }
        ensures { AreBoundsIn first.now self.now result }
    {
        Bounds::of_sums(
            self.reaction(first),
            self.age(first),
            self.reduced(first),
            self.delay(),
        )
    }
}
