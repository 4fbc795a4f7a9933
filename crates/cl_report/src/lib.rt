//! The report and the survey of a model.
#![tactic(auto)]

mod exact_lines;
pub mod laws;
mod lines;
mod requirement_lines;
mod survey;
mod words;

pub use lines::{put_bounds, put_chain, put_chain_answer, put_report, put_task, put_tasks, report};
pub use survey::survey_text;
pub use words::{kind_word, put_chain_name, put_jobs, put_name, put_task_name};
