//! What the definitions say of small examples.
ghost use Rattle.std.specs.Prelude.{◌≡◌, ◌⊎◌, ℕ, ◌+◌, ◌≤◌, take, Ok};
ghost use Rattle.cl_model.specs.{declared.model.SystemModel.SystemModel, Groups.{groups_of, group_at}};
ghost use Rattle.cl_runs.specs.{TaskTiming.IsSound, Table.{AreLawfulJobs, IsLawful}, Run.Run, RunChains.run_moments, Legal.IsLegal, Chains.{JobChain, first_job, IsEarliestReader, IsForwardChain, IsAgeChain, IsReducedChain}, Measured.IsMeasured, SystemOf.system_of};
ghost use Rattle.cl_exact.specs.{ExactLengths.AreExactLengths, RunPromises.IsSettledTimedChain};
ghost use Rattle.cl_edit.specs.Edited.{edited};
ghost use Rattle.cl_incr.specs.Changed.{AsksForChanges};
ghost use Rattle.cl_examples.specs.{EditedModels.{two_cores_model, two_chains_model, longer_b, later_b, no_chain_ab, b_above_a}, ExampleModel.{two_tasks_model, chain_ab}, WholeModel.one_core_model, WholeExample.{one_core, one_core_table, whole_run, broken_run, one_core_divided}};
ghost use Rattle.cl_examples.specs.{TimedExample.{timed_tasks, timed_lengths}, TimedModel.timed_model, Examples.{sporadic_task, two_jobs, two_tasks, jobs_of_b, table_with, two_tasks_run, two_tasks_moments, from_a_to_b, two_job_chain, two_tasks_measured}};

/// For a sporadic task with gaps from 5 to 8, arrivals at 0 and 8 are lawful for 16 ticks, but not
/// for 17, since a third one was due.
pub fn arrivals_at_0_and_8()
    ensures for_16_ticks { AreLawfulJobs sporadic_task 16 two_jobs }
    ensures not_for_17_ticks { AreLawfulJobs sporadic_task 17 two_jobs → ⊥ }
{}

/// The example model of tasks A and B, with periods of 10 and 20 ticks, on two cores, has the
/// system `two_tasks`, and its chain has two groups, one of A and one of B.
pub fn model_of_two_tasks()
    ensures system { system_of two_tasks_model ≡ two_tasks }
    ensures groups { groups_of two_tasks_model chain_ab ≡ from_a_to_b }
{}

/// A table of 37 ticks in which task A arrives at 0, 10, 20 and 30 and task B at 12 and 32 is
/// lawful. It isn't lawful without the last job of B, since its arrival was due.
pub fn table_of_two_tasks()
    ensures lawful { IsLawful two_tasks (table_with jobs_of_b) }
    ensures not_without_the_last { IsLawful two_tasks (table_with (take 1 jobs_of_b)) → ⊥ }
{}

/// The system of tasks A and B is sound, and the run of their table of 37 ticks in which each job
/// runs as it is released is legal.
pub fn run_of_two_tasks()
    ensures sound { IsSound two_tasks }
    ensures legal { IsLegal two_tasks two_tasks_run }
{}

/// In the run of tasks A and B for 37 ticks, the complete forward chains are exactly that of A's
/// job 1 and B's job 1, with a reaction of 37, and that of A's job 2 and B's job 1, with a reaction
/// of 27.
pub fn forward_chains_of_two_tasks()
    ensures reaction_37 { IsForwardChain two_tasks_moments from_a_to_b (two_job_chain 1 1 0 37) }
    ensures reaction_27 { IsForwardChain two_tasks_moments from_a_to_b (two_job_chain 2 1 10 37) }
    ensures no_other { (chain : JobChain) → IsForwardChain two_tasks_moments from_a_to_b chain
        → (chain ≡ two_job_chain 1 1 0 37) ⊎ (chain ≡ two_job_chain 2 1 10 37) }
{}

/// In the run of tasks A and B, the start-up chain isn't complete: B's job 0 is the earliest reader
/// of A's job 0, and yet no complete forward chain begins with A's job 0.
pub fn start_up_chains_are_not_complete()
    ensures linked { IsEarliestReader two_tasks_moments (group_at from_a_to_b 0) (group_at from_a_to_b 1) 0 0 }
    ensures not_complete { (chain : JobChain) → first_job chain ≡ 0
        → IsForwardChain two_tasks_moments from_a_to_b chain → ⊥ }
{}

/// In the run of tasks A and B for 37 ticks, the complete backward chain of A's job 0 and B's job 0
/// has an age of 37 and a reduced age of 17, and no other chain has an age.
pub fn backward_chain_of_two_tasks()
    ensures age_37 { IsAgeChain two_tasks_moments from_a_to_b (two_job_chain 0 0 0 37) }
    ensures reduced_17 { IsReducedChain two_tasks_moments from_a_to_b (two_job_chain 0 0 0 17) }
    ensures no_other { (chain : JobChain) → IsAgeChain two_tasks_moments from_a_to_b chain
        → chain ≡ two_job_chain 0 0 0 37 }
{}

/// In the run of tasks A and B for 37 ticks, a greatest reaction of 37, a greatest age of 37 and a
/// greatest reduced age of 17 are measured, with two complete forward chains and one complete
/// backward chain.
pub fn measured_of_two_tasks()
    ensures { IsMeasured two_tasks_moments from_a_to_b two_tasks_measured }
{}

/// In the system of a model, two tasks share a core, and the one of lower priority, whose runnable
/// is whole, begins before the other arrives. The run in which it isn't interrupted is legal. The
/// run of the same lawful table in which it is interrupted isn't legal, but it is legal for the
/// same tasks without a whole runnable.
pub fn runs_of_a_whole_runnable()
    ensures system { system_of one_core_model ≡ one_core }
    ensures lawful { IsLawful one_core one_core_table }
    ensures legal { IsLegal one_core whole_run }
    ensures not_interrupted { IsLegal one_core broken_run → ⊥ }
    ensures interrupted_where_divided { IsLegal one_core_divided broken_run }
{}

/// The example model of two timed tasks A and B, with periods of 10 and 15 ticks, has the system
/// `timed_tasks`, and its chain has two groups, one of A and one of B.
pub fn model_of_timed_tasks()
    ensures system { system_of timed_model ≡ timed_tasks }
    ensures groups { groups_of timed_model chain_ab ≡ from_a_to_b }
{}

/// The system of the two timed tasks is sound, its chain is timed and periodic, and neither task is
/// late.
pub fn timed_tasks_are_settled()
    ensures sound { IsSound timed_tasks }
    ensures settled { IsSettledTimedChain timed_tasks from_a_to_b }
{}

/// The exact lengths of the chain of the two timed tasks are a reaction of 45, by A's job 4 and B's
/// job 4, and an age of 45 and a reduced age of 30, by A's job 6 and B's job 5.
pub fn exact_lengths_of_timed_tasks()
    ensures { AreExactLengths timed_tasks from_a_to_b timed_lengths }
{}

/// The job chain with the exact reduced age of the two timed tasks lasts from 60 to 90, but is
/// complete only once B's next job has written, at 105: it is a complete backward chain of each
/// legal run of 105 ticks, and of none of 90.
pub fn reduced_witness_of_timed_tasks()
    ensures in_105_ticks { (run : Run) → IsLegal timed_tasks run → run.table.ticks ≡ 105
        → IsReducedChain (run_moments timed_tasks run) from_a_to_b (two_job_chain 6 5 60 90) }
    ensures not_in_90_ticks { (run : Run) → IsLegal timed_tasks run → run.table.ticks ≡ 90
        → IsReducedChain (run_moments timed_tasks run) from_a_to_b (two_job_chain 6 5 60 90) → ⊥ }
{}

/// In a session an edit counts at most one step for each task and two for each chain whose question
/// it changes. In the example of two cores that is at most 3 steps for a longer runnable of B (B
/// and the chain), at most 2 for another offset of B's stimulus (the chain), and none for dropping
/// the chain. In the example of two chains it is at most 6 steps where the two tasks of a core
/// exchange their priorities (both tasks and both chains).
pub fn steps_of_edits()
    ensures longer { (changed : SystemModel) (before after : ℕ)
        → edited two_cores_model longer_b ≡ Ok changed
        → AsksForChanges two_cores_model changed before after → after ≤ before + 3 }
    ensures later { (changed : SystemModel) (before after : ℕ)
        → edited two_cores_model later_b ≡ Ok changed
        → AsksForChanges two_cores_model changed before after → after ≤ before + 2 }
    ensures dropped { (changed : SystemModel) (before after : ℕ)
        → edited two_cores_model no_chain_ab ≡ Ok changed
        → AsksForChanges two_cores_model changed before after → after ≤ before }
    ensures swapped { (changed : SystemModel) (before after : ℕ)
        → edited two_chains_model b_above_a ≡ Ok changed
        → AsksForChanges two_chains_model changed before after → after ≤ before + 6 }
{}
