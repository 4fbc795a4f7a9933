//! Hops: how much later the job of a group of a settled chain arrives, at the latest, than the job of
//! the group before it.
ghost use Rattle.std.specs.Prelude.{ℕ, pos, ◌+ℤ◌, ◌≤ℤ◌, ◌+◌, ◌≤◌, [], ◌∷◌};
ghost use Rattle.cl_model.specs.declared.group.Group.{Group};
ghost use Rattle.cl_runs.specs.{TaskTiming.{System, IsSound}, Table.job_at, Run.{Run, jobs_of}, Legal.IsLegal, Chains.{IsEarliestReader, IsLatestWriter}, RunChains.run_moments};
ghost use Rattle.cl_hop.specs.Hops.{forward_hop, backward_hop};
ghost use Rattle.cl_bound.specs.{Bounds.settled_timing, SettledChains.IsSettledChain};

/// Of two neighbouring groups of a settled chain, an earliest reader that isn't job 0 arrives at
/// most the forward hop after its writer, and a job arrives at most the backward hop after its
/// latest writer.
pub fn hops_bound_arrivals()
    // an earliest reader that isn't job 0
    ensures forward { (system : System) → IsSound system → (x y : Group)
        → IsSettledChain system (x ∷ y ∷ [])
        → (run : Run) → IsLegal system run → (m k : ℕ) → 1 ≤ k
        → IsEarliestReader (run_moments system run) x y m k
        → pos (job_at (jobs_of run y.task) k).arrival
        ≤ℤ (pos (job_at (jobs_of run x.task) m).arrival +ℤ forward_hop (settled_timing system x) (settled_timing system y)) }
    // a job with a latest writer
    ensures backward { (system : System) → IsSound system → (x y : Group)
        → IsSettledChain system (x ∷ y ∷ [])
        → (run : Run) → IsLegal system run → (m k : ℕ)
        → IsLatestWriter (run_moments system run) x y m k
        → pos (job_at (jobs_of run y.task) k).arrival
        ≤ℤ (pos (job_at (jobs_of run x.task) m).arrival +ℤ backward_hop (settled_timing system x) (settled_timing system y)) }
{}
