//! Worked examples: what the definitions of runs, job chains, exact lengths and the steps of edits
//! say of small systems. No other crate rests on them.
#![tactic(auto)]

pub mod laws;
