//! Moments that are noted for tasks or cores. Times are in ticks.
use cl_time::NoMemory;
use std::alloc::Global;

/// Returns a moment as a tick of a run, and 0 for one before 0. The jobs to which a plan keeps arrive
/// at 0 or later.
pub(crate) fn tick_of(moment: i64) -> u64 {
    moment.max(0) as u64
}

/// A moment that is noted for a task or a core, given by its number.
#[derive(Clone, Copy, PartialEq, Eq, PartialOrd, Ord)]
struct Noted {
    of: u32,
    moment: u64,
}

/// Moments that are noted for tasks or cores, each given by its number. They are found once they are
/// put in order.
#[derive(Drop)]
pub(crate) struct Moments {
    noted: Vec<Noted>,
}

impl Moments {
    /// Starts without a moment. Takes no memory.
    pub(crate) fn new(alloc: Global) -> Moments {
        Moments {
            noted: Vec::new(alloc),
        }
    }

    /// Notes a moment of a task or a core. `NoMemory` comes where there is no memory for it.
    pub(crate) fn note(&mut self, of: u32, moment: u64) -> Result<(), NoMemory> {
        self.noted.push(Noted { of, moment })?;
        Ok(())
    }

    /// Puts the moments in order, those of one task or core together.
    pub(crate) fn put_in_order(&mut self) {
        self.noted.sort_unstable();
    }

    /// Returns the moment at a place, if it is one of this task or core.
    fn at(&self, place: usize, of: u32) -> Option<u64> {
        let noted = self.noted.as_slice().get(place)?;
        if noted.of == of {
            Some(noted.moment)
        } else {
            None
        }
    }

    /// Finds the first moment of a task or a core.
    pub(crate) fn first(&self, of: u32) -> Option<u64> {
        let place = self.noted.partition_point(|noted| noted.of < of);
        self.at(place, of)
    }

    /// Finds the first moment of a task or a core that comes after another.
    pub(crate) fn after(&self, of: u32, moment: u64) -> Option<u64> {
        let before = Noted { of, moment };
        let place = self.noted.partition_point(|noted| *noted <= before);
        self.at(place, of)
    }

    /// Checks whether a moment is noted for a task or a core.
    pub(crate) fn has(&self, of: u32, moment: u64) -> bool {
        let sought = Noted { of, moment };
        let place = self.noted.partition_point(|noted| *noted < sought);
        self.at(place, of) == Some(moment)
    }
}
