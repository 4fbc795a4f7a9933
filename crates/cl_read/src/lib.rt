//! Reads a model file: the model that its bytes describe, or the first refusal.
#![tactic(auto)]

use cl_model::ModelFault;

mod arrays;
mod document;
mod entries;
mod fields;
mod keys;
mod stimuli;
mod values;

pub use document::read_model;

/// Why a model file can't be read: its first refusal, or want of memory.
pub type ReadFault = ModelFault;
