//! Sporadic arrivals that are led towards aims, as far as their distances let them. Times are in
//! ticks.
use cl_model::StimulusKind;

/// The least and the greatest distance between two arrivals that follow each other.
#[derive(Clone, Copy)]
pub(crate) struct Distances {
    pub(crate) least: u64,
    pub(crate) greatest: u64,
}

impl Distances {
    /// Returns the distances of a sporadic stimulus, and `None` for another.
    pub(crate) fn of(kind: StimulusKind) -> Option<Distances> {
        match kind {
            StimulusKind::Sporadic { least, greatest } => Some(Distances { least, greatest }),
            StimulusKind::Periodic { .. } | StimulusKind::Burst { .. } => None,
        }
    }

    /// Finds a first arrival from which the greatest distances lead to the first aim. It is the
    /// latest that there may be where there is no aim.
    pub(crate) fn first_towards(self, aim: Option<u64>) -> u64 {
        match aim {
            Some(aim) => aim % self.greatest.max(1),
            None => self.greatest.saturating_sub(1),
        }
    }

    /// Finds the arrival after another that leads to the next aim. It is the earliest that there may
    /// be where there is no aim, or where the next one is too near.
    pub(crate) fn next_towards(self, arrival: u64, aim: Option<u64>) -> u64 {
        let distance = match aim {
            Some(aim) => self.step_towards(aim.saturating_sub(arrival)),
            None => self.least,
        };
        arrival.saturating_add(distance)
    }

    /// Returns the distance to the next arrival on the way to an aim that is so far away: as few
    /// steps as can be, each as long as can be but for the first.
    fn step_towards(self, far: u64) -> u64 {
        if far < self.least {
            return self.least;
        }
        if far <= self.greatest {
            return far;
        }
        let steps = far.div_ceil(self.greatest.max(1));
        if steps.saturating_mul(self.least) > far {
            return self.greatest;
        }
        let others = steps.saturating_sub(1).saturating_mul(self.greatest);
        self.least.max(far.saturating_sub(others))
    }
}
