//! How a model stands before its times grow.
ghost use Rattle.std.specs.Prelude.{◌≡◌, ◌<◌, length};
ghost use Rattle.cl_margin.specs.Margins.{is_met_task, is_met_requirement};

use crate::allowed::{Allowed, is_met};
use cl_model::ValidModel;
use cl_tight::TightFindings;

/// A model as it stands: what is found of it, and what its requirements allow that are met.
#[derive(Clone, Copy)]
pub(crate) struct Standing<'a> {
    pub(crate) model: &'a ValidModel,
    pub(crate) found: &'a TightFindings,
    /// The tasks, core by core, on each from the highest priority to the lowest.
    pub(crate) order: &'a [u32],
    /// What is allowed of each chain.
    pub(crate) allowed: &'a [Allowed],
}

impl Standing<'_> {
    /// Checks whether a task is met: it isn't late.
    pub(crate) fn has_task(&self, task: u32) -> bool
        requires { task < length self.now.found.now.tasks }
        ensures { result ≡ is_met_task self.now.found.now task }
    {
        !self.found.tasks.as_slice()[task as usize].is_late()
    }

    /// Checks whether a requirement is met.
    pub(crate) fn has_requirement(&self, requirement: usize) -> bool
        requires { requirement < length self.now.found.now.verdicts }
        ensures { result ≡ is_met_requirement self.now.found.now requirement }
    {
        is_met(&self.found.verdicts.as_slice()[requirement])
    }
}
