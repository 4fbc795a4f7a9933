//! The answer to the question of a task. Times are in ticks.
ghost use Rattle.std.specs.Prelude.{◌≡◌};

use std::marker::Model;

/// The window and the response of a settled task, whose jobs always finish by its deadline. Only
/// `respond`, `respond_from`, `respond_below` and `settle` make one.
#[derive(Clone, Copy, PartialEq, Eq)]
pub struct Settled {
    pub(crate) window: u64,
    pub(crate) response: u64,
}

impl Model for Settled {
    ghost use Rattle.cl_resp.specs.Response.{Response};

    ghost Value = { Response };

    ghost view = { λ a. record { window = a.window; response = a.response } };

    ghost inverse = { λ r. record { window = r.window; response = r.response } };
}

impl Settled {
    /// Returns the least window that holds its own demand, in ticks.
    pub fn window(&self) -> u64
        ensures { result ≡ self.now.window }
    {
        self.window
    }

    /// Returns how long after its arrival a job finishes at the latest, in ticks.
    pub fn response(&self) -> u64
        ensures { result ≡ self.now.response }
    {
        self.response
    }
}

/// The answer for a late task: no window, from 1 tick up to the deadline less the jitter, holds its
/// own demand.
#[derive(Clone, Copy, PartialEq, Eq)]
pub struct Late;
