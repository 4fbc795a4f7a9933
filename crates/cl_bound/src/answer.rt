//! What is known of a task: its response, or that it is late.
ghost use Rattle.std.specs.Prelude.{◌≡◌};
ghost use Rattle.cl_bound.specs.Answers.{is_late, response_in};

use cl_resp::Settled;

/// The answer to the question of a task.
#[derive(Clone, Copy, PartialEq, Eq)]
pub enum TaskAnswer {
    Settled(Settled),
    Late,
}

impl TaskAnswer {
    /// Checks whether the task is late.
    pub fn is_late(&self) -> bool
        ensures { result ≡ is_late self.now }
    {
        match self {
            TaskAnswer::Settled(_) => false,
            TaskAnswer::Late => true,
        }
    }

    /// Returns the response of a settled task in ticks, and 0 for a late task, which has none.
    pub(crate) fn response(&self) -> u64
        ensures { result ≡ response_in self.now }
    {
        match self {
            TaskAnswer::Settled(settled) => settled.response(),
            TaskAnswer::Late => 0,
        }
    }
}
