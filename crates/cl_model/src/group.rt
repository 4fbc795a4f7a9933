//! Steps of chains, and their groups.
ghost use Rattle.std.specs.Prelude.{◌≡◌};
ghost use Rattle.cl_model.specs.Groups.{is_inner, group_of_step};

/// A step of a chain: a runnable, given by its task and its index in that task, both counted from
/// 0.
#[derive(Clone, Copy, PartialEq, Eq)]
pub struct Step {
    pub task: u32,
    pub place: u32,
}

/// A group: steps of a chain that one job executes. It has the number of their task, and the
/// indices of the first and the last of their runnables in it.
#[derive(Clone, Copy, PartialEq, Eq)]
pub struct Group {
    pub task: u32,
    pub first: u32,
    pub last: u32,
}

impl Group {
    /// Makes a group of one step.
    pub fn of_step(step: Step) -> Group
        ensures { result ≡ group_of_step step }
    {
        Group {
            task: step.task,
            first: step.place,
            last: step.place,
        }
    }

    /// Whether the hop from the group to a step is inner: both are in one task, and the step comes
    /// after the last runnable of the group.
    pub fn is_inner(self, step: Step) -> bool
        ensures { result ≡ is_inner self step }
    {
        self.task == step.task && self.last < step.place
    }
}
