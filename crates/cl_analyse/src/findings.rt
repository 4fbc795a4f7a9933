//! What is found of a model. Times are in ticks.
ghost use Rattle.std.specs.Prelude.{◌≡◌};
ghost use Rattle.cl_analyse.specs.Verdicts.{bound_value, exact_value, required_bound, required_exact};

use cl_bound::TaskAnswer;
use cl_exact::ExactLengths;
use cl_hop::Bounds;
use cl_model::{LengthKind, List, RequirementKind};

/// What is found of the bounds of a chain.
#[derive(Clone, Copy, PartialEq, Eq)]
pub enum ChainAnswer {
    Bounds(Bounds),
    /// It has no bounds: this task is late, the first such along its steps.
    Late { task: u32 },
}

impl ChainAnswer {
    /// Returns the bound on the lengths of a kind, in ticks. It is `None` exactly where a task of
    /// the chain is late.
    pub fn value(&self, kind: LengthKind) -> Option<u64>
        ensures { result ≡ bound_value kind self.now }
    {
        match self {
            ChainAnswer::Bounds(bounds) => Some(match kind {
                LengthKind::Reaction => bounds.reaction(),
                LengthKind::Age => bounds.age(),
                LengthKind::Reduced => bounds.reduced(),
            }),
            ChainAnswer::Late { .. } => None,
        }
    }

    /// Returns the bound on what a requirement of this kind limits, in ticks. It is `None` exactly
    /// where a task of the chain is late.
    pub fn required(&self, kind: RequirementKind) -> Option<u64>
        ensures { result ≡ required_bound kind self.now }
    {
        match (self, kind) {
            (_, RequirementKind::Length(kind)) => self.value(kind),
            (ChainAnswer::Bounds(bounds), RequirementKind::Delay) => Some(bounds.delay()),
            (ChainAnswer::Late { .. }, RequirementKind::Delay) => None,
        }
    }
}

/// What is found of the exact lengths of a chain.
#[derive(PartialEq, Eq, Drop)]
pub enum ExactAnswer {
    Exact(ExactLengths),
    /// The hyperperiod of the chain exceeds this limit, in ticks, so no exact lengths were
    /// computed. None of its tasks is late, and all are timed and periodic.
    Past { limit: u64 },
    /// A task of the chain isn't both timed and periodic. None is late.
    NotTimed,
    /// A task of the chain is late.
    ChainLate,
}

impl ExactAnswer {
    /// Returns the exact length of a kind, in ticks. It is `None` exactly where the chain has no
    /// exact lengths here.
    pub fn value(&self, kind: LengthKind) -> Option<u64>
        ensures { result ≡ exact_value kind self.now }
    {
        match self {
            ExactAnswer::Exact(lengths) => Some(match kind {
                LengthKind::Reaction => lengths.reaction().length,
                LengthKind::Age => lengths.age().length,
                LengthKind::Reduced => lengths.reduced().length,
            }),
            _ => None,
        }
    }

    /// Returns the exact value of what a requirement of this kind limits, in ticks. It is `None`
    /// exactly where the chain has no exact lengths here, and of a delay.
    pub fn required(&self, kind: RequirementKind) -> Option<u64>
        ensures { result ≡ required_exact kind self.now }
    {
        match kind {
            RequirementKind::Length(kind) => self.value(kind),
            RequirementKind::Delay => None,
        }
    }

    /// Makes an equal copy. It takes no memory.
    pub fn copy(&self) -> ExactAnswer
        ensures { result ≡ self.now }
    {
        match self {
            ExactAnswer::Exact(lengths) => ExactAnswer::Exact(lengths.copy()),
            ExactAnswer::Past { limit } => ExactAnswer::Past { limit: *limit },
            ExactAnswer::NotTimed => ExactAnswer::NotTimed,
            ExactAnswer::ChainLate => ExactAnswer::ChainLate,
        }
    }
}

/// The verdict on a requirement. Values are in ticks.
#[derive(Clone, Copy, PartialEq, Eq)]
pub enum Verdict {
    /// The value, exact or a bound, is at most what is required.
    Met { value: u64 },
    /// The value exceeds what is required, and it is exact.
    Broken { value: u64 },
    /// The value exceeds what is required, but it is only a bound; or there is no value.
    Unshown { value: Option<u64> },
}

/// What is found of a model.
#[derive(PartialEq, Eq, Drop)]
pub struct Findings {
    /// The answer for each task, in file order.
    pub tasks: List<TaskAnswer>,
    /// The bounds of each chain or its first late task, in file order.
    pub chains: List<ChainAnswer>,
    /// The exact lengths of each chain or why there are none, in file order.
    pub exacts: List<ExactAnswer>,
    /// The verdict on each requirement, in file order.
    pub verdicts: List<Verdict>,
}
