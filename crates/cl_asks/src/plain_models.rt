//! Questions on a model that needn't be valid.
ghost use Rattle.cl_model.specs.Ranges.{IsInRange};

use crate::words::{refused, said};
use cl_model::SystemModel;
use cl_read::read_model;
use cl_text::Text;
use cl_time::NoMemory;
use cl_valid::in_range;
use cl_write::write_model;
use std::alloc::Global;

/// Answers `read MODEL`: the model that a text means.
pub(crate) fn read(alloc: Global, bytes: &[u8]) -> Result<Text, NoMemory> {
    match read_model(alloc, bytes) {
        Ok(model) => copied(alloc, &model),
        Err(fault) => refused(alloc, fault),
    }
}

/// Writes a model by a copy of it.
fn copied(alloc: Global, model: &SystemModel) -> Result<Text, NoMemory> {
    match model.copy(alloc) {
        Ok(copy) => printed(alloc, model, &copy),
        Err(no_memory) => Err(no_memory),
    }
}

/// Writes a copy of a model as it prints, or that it differs from the model.
fn printed(alloc: Global, model: &SystemModel, copy: &SystemModel) -> Result<Text, NoMemory> {
    if copy != model {
        return said(alloc, "the copy differs");
    }
    said(alloc, format!(in alloc; "{copy:?}")?.as_str())
}

/// Answers `write MODEL`: the text that is written of the model that a text means.
pub(crate) fn written(alloc: Global, bytes: &[u8]) -> Result<Text, NoMemory> {
    match read_model(alloc, bytes) {
        Ok(model) => written_of(alloc, &model, bytes),
        Err(fault) => refused(alloc, fault),
    }
}

/// Writes the text of a model, or that the model isn't in range.
fn written_of(alloc: Global, model: &SystemModel, bytes: &[u8]) -> Result<Text, NoMemory> {
    if !in_range(model) {
        return said(alloc, "out of range");
    }
    compared(alloc, write_model(alloc, model)?, bytes)
}

/// Returns a text that was written, or a line that it equals the text that was read.
pub(crate) fn compared(alloc: Global, text: Text, read: &[u8]) -> Result<Text, NoMemory> {
    if text.as_slice() == read {
        return said(alloc, "as it was read");
    }
    Ok(text)
}
