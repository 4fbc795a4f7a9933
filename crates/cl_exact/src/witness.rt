//! A job chain that attains an exact length. Times are in ticks.
ghost use Rattle.std.specs.Prelude.{◌≡◌};

use crate::job_numbers::JobNumbers;

/// A job chain over the ideal moments that attains an exact length.
#[derive(PartialEq, Eq, Drop)]
pub struct Witness {
    /// How long it lasts, in ticks.
    pub length: u64,
    /// The moment of the read with which it begins: for a reaction that of the job before its
    /// first.
    pub from: u64,
    /// The moment of the write with which it ends: for an age that of the job after its last.
    pub to: u64,
    /// The numbers of its jobs, one for each group of the chain, in order.
    pub jobs: JobNumbers,
}

impl Witness {
    /// Makes an equal copy. Takes no memory.
    pub fn copy(&self) -> Witness
        ensures { result ≡ self.now }
    {
        Witness {
            length: self.length,
            from: self.from,
            to: self.to,
            jobs: self.jobs.copy(),
        }
    }
}
