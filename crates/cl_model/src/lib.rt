//! The types of a model of cores, stimuli, labels, tasks, runnables, chains and requirements, and
//! why a model is refused.
#![tactic(auto)]

mod chain;
mod changes;
mod copying;
mod entries;
mod group;
mod groups;
pub mod laws;
mod limits;
mod list;
mod look_ups;
mod model;
mod model_fault;
mod name;
mod name_set;
mod place;
mod refusal;
mod stimulus;
mod task;
mod task_numbers;
mod valid_model;

pub use chain::{ChainDef, LengthKind, RequirementDef, RequirementKind};
pub use changes::TaskPriority;
pub use copying::TryCopy;
pub use entries::{Named, name_numbers};
pub use group::{Group, Step};
pub use limits::{
    LEAST_JOBS_OF_BURST, MOST_ACCESSES, MOST_CHAINS, MOST_CORES, MOST_DISTANCES, MOST_HOPS,
    MOST_JOBS_OF_BURST, MOST_LABELS, MOST_PRIORITY, MOST_REQUIRED, MOST_REQUIREMENTS,
    MOST_RUNNABLES, MOST_RUNNABLES_OF_MODEL, MOST_STEPS, MOST_STIMULI, MOST_TASKS,
    MOST_TASKS_OF_CORE, MOST_TICKS,
};
pub use list::List;
pub use look_ups::kind_named;
pub use model::{CoreDef, LabelDef, SystemModel};
pub use model_fault::{ModelFault, add_new, refuse_unless, refuse_when};
pub use name::{LONGEST_NAME, Name};
pub use name_set::NameSet;
pub use place::{Key, Part, Place};
pub use refusal::{Code, Refusal};
pub use stimulus::{StimulusDef, StimulusKind};
pub use task::{AccessKind, RunnableDef, TaskDef};
pub use valid_model::ValidModel;
