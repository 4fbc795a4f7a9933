//! When the jobs of a walk read and write, core by core. Times are in ticks.
use cl_time::NoMemory;
use std::alloc::Global;

/// What a job of a walk does at a moment. Of what is done at one moment, reads come first.
#[derive(Clone, Copy, PartialEq, Eq, PartialOrd, Ord)]
pub(crate) enum Access {
    /// The job that just misses reads at the earliest.
    Read,
    /// The job that takes has written at the latest. `begin` is when it is released at the latest.
    Write { begin: u64 },
}

/// An access of a job on a core.
#[derive(Clone, Copy, PartialEq, Eq, PartialOrd, Ord)]
pub(crate) struct AccessOfCore {
    pub(crate) core: u32,
    pub(crate) moment: u64,
    pub(crate) access: Access,
}

/// The accesses of the jobs of a walk. They are found once they are put in order.
#[derive(Drop)]
pub(crate) struct Accesses {
    accesses: Vec<AccessOfCore>,
}

impl Accesses {
    /// Starts without an access. Takes no memory.
    pub(crate) fn new(alloc: Global) -> Accesses {
        Accesses {
            accesses: Vec::new(alloc),
        }
    }

    /// Adds an access. `NoMemory` comes where there is no memory for it.
    pub(crate) fn add(&mut self, access: AccessOfCore) -> Result<(), NoMemory> {
        self.accesses.push(access)?;
        Ok(())
    }

    /// Puts the accesses in order, those of one core together.
    pub(crate) fn put_in_order(&mut self) {
        self.accesses.sort_unstable();
    }

    /// Finds the first access on a core that comes after a moment.
    pub(crate) fn after(&self, core: u32, moment: u64) -> Option<AccessOfCore> {
        let place = self.accesses.partition_point(|access| {
            access.core < core || (access.core == core && access.moment <= moment)
        });
        let next = self.accesses.as_slice().get(place)?;
        if next.core == core { Some(*next) } else { None }
    }
}
