//! Questions on models, asked by words and answered by lines, so that the cases of tests can ask
//! single calls.
#![tactic(auto)]

mod asking;
mod designs;
mod exact_lengths;
mod job_chains;
mod phases;
mod plain_models;
mod runs;
mod sessions;
mod tables;
mod valid_models;
mod words;

pub use asking::ask;
