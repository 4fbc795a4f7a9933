//! The limits of a model. Times are in ticks.

/// The greatest time in a model, except for the lengths that requirements allow.
pub const MOST_TICKS: u64 = 1_000_000_000_000;

/// The greatest length that a requirement may allow.
pub const MOST_REQUIRED: u64 = 1_000_000_000_000_000;

/// The highest priority.
pub const MOST_PRIORITY: u64 = 1_000_000;

/// The most cores.
pub const MOST_CORES: usize = 64;

/// The most stimuli.
pub const MOST_STIMULI: usize = 1_024;

/// The fewest jobs of one burst.
pub const LEAST_JOBS_OF_BURST: u64 = 2;

/// The most jobs of one burst.
pub const MOST_JOBS_OF_BURST: u64 = 1_000_000;

/// The most labels.
pub const MOST_LABELS: usize = 8_192;

/// The most tasks.
pub const MOST_TASKS: usize = 1_024;

/// The most runnables of one task.
pub const MOST_RUNNABLES: usize = 256;

/// The most labels that one runnable may read, and the most that it may write.
pub const MOST_ACCESSES: usize = 256;

/// The most chains.
pub const MOST_CHAINS: usize = 1_024;

/// The most runnables of one chain.
pub const MOST_STEPS: usize = 64;

/// The most labels of one chain.
pub const MOST_HOPS: usize = 63;

/// The most requirements.
pub const MOST_REQUIREMENTS: usize = 1_024;

/// The most tasks of one core.
pub const MOST_TASKS_OF_CORE: usize = 128;

/// The most runnables of all tasks together.
pub const MOST_RUNNABLES_OF_MODEL: usize = 8_192;

/// The most least distances of a task of higher priority on the same core that a deadline, with the
/// jitter of that task added, may span.
pub const MOST_DISTANCES: u64 = 1_000_000;
