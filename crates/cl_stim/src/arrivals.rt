//! Arrivals: what a pattern says about the jobs of a task. Times are in ticks.
ghost use Rattle.std.specs.Prelude.{◌≡◌, ℕ, ◌≤◌, List};
ghost use Rattle.cl_runs.specs.declared.job.Job.{Job};
ghost use Rattle.cl_stim.specs.Jobs.{AreFew, HaveGaps, ReachEnd, AreReleased};

/// The greatest width of a window, in ticks.
pub const MOST_WIDTH: u64 = 2_000_000_000_000;

/// A pattern of arrivals: how many jobs are released in a window, how far apart jobs arrive, and
/// how long after its arrival a job is released. The calls run in constant time and take no memory.
pub trait Arrivals {
    /// What is known of each value of the type.
    ghost is_known: { Self → Type 0 };

    /// Holds of the lists of jobs that follow the pattern for `ticks` ticks.
    ghost are_lawful: { Self → (ticks : ℕ) → List Job → Type 0 };

    /// The most jobs that are released in any `width` consecutive ticks.
    ghost most: { Self → (width : ℕ) → ℕ };

    /// The least distance between the arrivals of consecutive jobs.
    ghost least_distance: { Self → ℕ };

    /// The greatest distance between the arrivals of consecutive jobs.
    ghost greatest_distance: { Self → ℕ };

    /// The longest time from a job's arrival to its release.
    ghost jitter: { Self → ℕ };

    /// Computes how many jobs are released at most in any `width` consecutive ticks.
    fn most(&self, width: u64) -> u64
        requires { width ≤ MOST_WIDTH }
        ensures most { result ≡ most self.now width }
        ensures known { is_known self.now };

    /// Finds a window of at least `width` ticks in which no more jobs are released at most than in
    /// `width` ticks, and returns its width in ticks. For each kind of stimulus it is the widest
    /// such window.
    fn widest(&self, width: u64) -> u64
        requires { width ≤ MOST_WIDTH }
        ensures no_narrower { width ≤ result }
        ensures as_many { most self.now result ≡ most self.now width };

    /// Returns the least distance between the arrivals of consecutive jobs, in ticks.
    fn least_gap(&self) -> u64
        ensures gap { result ≡ least_distance self.now }
        ensures known { is_known self.now };

    /// Returns the greatest distance between the arrivals of consecutive jobs, in ticks.
    fn greatest_gap(&self) -> u64
        ensures gap { result ≡ greatest_distance self.now }
        ensures known { is_known self.now };

    /// Returns how long after its arrival a job is released at most, in ticks.
    fn jitter(&self) -> u64
        ensures jitter { result ≡ jitter self.now }
        ensures known { is_known self.now };

    /// The most releases never fall as the window grows.
    ghost never_falls: { (a : Self) → is_known a → (narrow wide : ℕ) → narrow ≤ wide
        → most a narrow ≤ most a wide };

    /// In a lawful list, any window of `width` ticks has at most `most a width` releases.
    ghost few: { (a : Self) → is_known a → (ticks : ℕ) (jobs : List Job) → are_lawful a ticks jobs
        → (width : ℕ) → AreFew (most a width) width jobs };

    /// In a lawful list, each job but the first arrives between the least and the greatest distance
    /// after the one before it.
    ghost gaps: { (a : Self) → is_known a → (ticks : ℕ) (jobs : List Job) → are_lawful a ticks jobs
        → HaveGaps (least_distance a) (greatest_distance a) jobs };

    /// In a lawful list, no arrival is missing at the end: the last job, if there is one, arrives
    /// at most the greatest distance before the end.
    ghost goes_on: { (a : Self) → is_known a → (ticks : ℕ) (jobs : List Job)
        → are_lawful a ticks jobs
        → ReachEnd (greatest_distance a) ticks jobs };

    /// In a lawful list, each job is released at its arrival or at most the jitter later.
    ghost released: { (a : Self) → is_known a → (ticks : ℕ) (jobs : List Job)
        → are_lawful a ticks jobs
        → AreReleased (jitter a) jobs };
}
