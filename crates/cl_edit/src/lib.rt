//! Edits of a model: small changes, the texts that list them, and the models that result from
//! applying them.
#![tactic(auto)]

mod change;
mod changed;
mod check;
mod check_lists;
mod check_move;
mod check_new_task;
mod check_priorities;
mod check_requirements;
mod check_sets;
mod cursor;
mod edit;
mod edit_lines;
mod fault;
mod fields;
mod kinds;
pub mod laws;
mod limits;
mod lines;
mod make;
mod new_deadlines;
mod new_labels;
mod pace;
mod pairs;
mod priorities_line;
mod ranges;
mod reading;
mod resolve;
mod said;
mod task_line;
mod title;
mod version;
mod words;

pub use change::Change;
pub use changed::changed_model;
pub use check::check_edit;
use cl_model::ModelFault;
pub use edit::{Edit, NamedPriority};
pub use edit_lines::{EditLines, ListedEdit};
pub use fault::EditsFault;
pub use limits::{MOST_EDITS, MOST_REPORTS};
pub use make::{apply_edit, edit_valid};
pub use reading::read_edits;
pub use title::version_named;
pub use version::Version;

/// Why an edit isn't applied: its first refusal, or memory ran out.
pub type EditFault = ModelFault;
