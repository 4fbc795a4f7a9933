//! The text of a model's tight findings.
#![tactic(auto)]

mod tight;

pub use tight::tight_report;
