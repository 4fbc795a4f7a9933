//! The demand of windows that only grow, without counting anew what stays the same. Times are in
//! ticks.
ghost use Rattle.std.specs.Prelude.{◌≡◌, ℕ, ◌+◌, ◌*◌, ◌<◌, ◌≤◌, List, MatchOption, IfSome};
ghost use Rattle.cl_model.specs.declared.limits.TheConstants.{MOST_RUNNABLES};
ghost use Rattle.cl_resp.specs.{declared.question.Above.Above, Question.IsQuestionInRange, Response.demand, Inner.Rising.{taken_in, AreTaken}};

use crate::answering::taken;
use crate::question::Question;
use cl_model::{MOST_TASKS_OF_CORE, MOST_TICKS};
use cl_stim::{Arrivals, MOST_WIDTH};

/// How many ticks each task above takes of a window, and the widest window of which it is known to
/// take just as many. At first this is 0 for each, since each window has a tick or more.
#[derive(Drop)]
pub(crate) struct Rising {
    ticks: [u64; MOST_TASKS_OF_CORE],
    until: [u64; MOST_TASKS_OF_CORE],
}

impl Rising {
    pub(crate) fn new() -> Rising
        ensures { (above : List Above) (from : ℕ) → 1 ≤ from
            → AreTaken taken_in above result.ticks result.until from }
    {
        Rising {
            ticks: [0; MOST_TASKS_OF_CORE],
            until: [0; MOST_TASKS_OF_CORE],
        }
    }

    /// Computes the most ticks that a job of the task and what goes before it need in a window of
    /// `width` ticks. `None` comes only where they are more than `end`. A task above is counted
    /// anew only where the window has outgrown the one up to which its ticks are known.
    pub(crate) fn demand(&mut self, question: &Question, width: u64, end: u64) -> Option<u64>
        requires in_range { IsQuestionInRange question.now }
        requires width { width ≤ end }
        requires end { end ≤ MOST_WIDTH }
        requires kept { AreTaken taken_in question.now.above self.old.ticks self.old.until width }
        ensures demand { MatchOption result
            (end < demand question.now width)
            (λ needed. needed ≡ demand question.now width) }
        ensures small { IfSome result
            (λ needed. needed ≤ (1 + MOST_RUNNABLES) * MOST_TICKS + MOST_TASKS_OF_CORE * MOST_WIDTH) }
        ensures kept { AreTaken taken_in question.now.above self.new.ticks self.new.until width }
    {
        let mut needed = question.block + question.time;
        for (place, above) in question.above.as_slice().iter().enumerate() {
            if self.until[place] < width {
                let ticks = taken(above, width);
                if ticks > u128::from(end) {
                    return None;
                }
                self.ticks[place] = ticks as u64;
                self.until[place] = above.stimulus.widest(width);
            }
            needed += self.ticks[place];
        }
        Some(needed)
    }
}
