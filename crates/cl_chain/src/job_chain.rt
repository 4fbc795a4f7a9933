//! Job chains of a run, and the measured chains.
use cl_model::List;

/// A job chain: a job of each group of a chain, and the moments from which and to which it lasts.
/// Moments are in ticks, and jobs are counted from 0.
#[derive(Drop)]
pub struct JobChain {
    /// The moment from which it lasts: a read of the first group or, where the chain is one of a
    /// delay, the arrival of its first job.
    pub from: u64,
    /// The moment to which it lasts: a write of the last group. It lies after `from`, but for the
    /// chain of a delay in a run that isn't legal.
    pub to: u64,
    /// The number of the job of each group, in the order of the groups.
    pub jobs: List<u64>,
}

/// The measured chains of a chain in a run.
#[derive(Drop)]
pub struct Measured {
    /// The longest complete forward chain and, among equals, the one with the least first job.
    pub reaction: Option<JobChain>,
    /// The longest complete backward chain to the write of the job after the last and, among
    /// equals, the one with the least last job.
    pub age: Option<JobChain>,
    /// The longest complete backward chain to the write of its last job and, among equals, the one
    /// with the least last job.
    pub reduced: Option<JobChain>,
    /// The number of complete forward chains.
    pub forward: u64,
    /// The number of complete backward chains.
    pub backward: u64,
}
