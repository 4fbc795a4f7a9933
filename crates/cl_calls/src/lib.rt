//! Tests of the public calls of single crates, but for those that take the text of a model: each
//! call on its happy path and at its limits.
#![tactic(auto)]

#[cfg(test)]
mod cycles;
#[cfg(test)]
mod decimals;
#[cfg(test)]
mod generated_models;
#[cfg(test)]
mod lanes;
#[cfg(test)]
mod models;
#[cfg(test)]
mod numbers;
#[cfg(test)]
mod outside;
#[cfg(test)]
mod responses;
#[cfg(test)]
mod stimuli;
#[cfg(test)]
mod wishes;
