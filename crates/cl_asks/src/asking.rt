//! The way from the words of a question, by its model, to the call that answers it.
ghost use Rattle.cl_model.specs.Ranges.{IsInRange};

use crate::words::{refused, said, word};
use crate::{designs, exact_lengths, phases, plain_models, runs, sessions, tables, valid_models};
use cl_io::{FetchFault, Shelf, Words};
use cl_model::{SystemModel, ValidModel};
use cl_read::read_model;
use cl_text::Text;
use cl_time::{NoMemory, Steps};
use cl_valid::validate;
use std::alloc::Global;
use std::sync::ledger::Ledger;

/// Answers `ask QUESTION MODEL` in lines. Further words of the question stand behind the name of
/// the model's file.
///
/// A question that there isn't, a file that can't be fetched, a refused model or edit, a bad line
/// of a trace or of a list of edits, an illegal run, and a word that spells no number or name that
/// fits are answered by a line that says so. `NoMemory` comes where there is no memory for a file,
/// a model, an answer or the work that finds it. Whatever comes, the shelf holds what it held.
pub fn ask<S: Shelf, L: Ledger>(
    alloc: Global,
    words: &Words,
    shelf: &mut S,
    steps: &mut Steps<L>,
) -> Result<Text, NoMemory> {
    match shelf.fetch(alloc, word(words, 2), u64::MAX) {
        Ok(bytes) => of_bytes(alloc, words, bytes.as_slice(), shelf, steps),
        Err(fault) => unfetched(alloc, fault),
    }
}

/// Answers why a file couldn't be fetched.
pub(crate) fn unfetched(alloc: Global, fault: FetchFault) -> Result<Text, NoMemory> {
    match fault {
        FetchFault::Failed => said(alloc, "no such file"),
        FetchFault::Long { .. } => said(alloc, "long file"),
        FetchFault::NoMemory => Err(NoMemory),
    }
}

/// Answers a question on the text of a model file.
fn of_bytes<S: Shelf, L: Ledger>(
    alloc: Global,
    words: &Words,
    bytes: &[u8],
    shelf: &mut S,
    steps: &mut Steps<L>,
) -> Result<Text, NoMemory> {
    match word(words, 1) {
        "read" => plain_models::read(alloc, bytes),
        "write" => plain_models::written(alloc, bytes),
        _ => of_text(alloc, words, bytes, shelf, steps),
    }
}

/// Answers a question on the valid model of a text.
fn of_text<S: Shelf, L: Ledger>(
    alloc: Global,
    words: &Words,
    bytes: &[u8],
    shelf: &mut S,
    steps: &mut Steps<L>,
) -> Result<Text, NoMemory> {
    match read_model(alloc, bytes) {
        Ok(model) => of_model(alloc, words, model, shelf, steps),
        Err(fault) => refused(alloc, fault),
    }
}

/// Answers a question on a model that was read, where it is valid.
fn of_model<S: Shelf, L: Ledger>(
    alloc: Global,
    words: &Words,
    model: SystemModel,
    shelf: &mut S,
    steps: &mut Steps<L>,
) -> Result<Text, NoMemory>
    requires { IsInRange model }
{
    match validate(alloc, model) {
        Ok(model) => of_valid(alloc, words, &model, shelf, steps),
        Err((_, fault)) => refused(alloc, fault),
    }
}

/// Answers a question on a valid model.
fn of_valid<S: Shelf, L: Ledger>(
    alloc: Global,
    words: &Words,
    model: &ValidModel,
    shelf: &mut S,
    steps: &mut Steps<L>,
) -> Result<Text, NoMemory> {
    match word(words, 1) {
        "trace" | "check" | "forward" | "backward" | "measure" | "delay" | "moments" => {
            of_trace(alloc, words, model, shelf)
        }
        "session" | "kept" | "alike" => sessions::session_lines(alloc, words, model, shelf, steps),
        "exact" => exact_lengths::exact_lines(alloc, words, model, steps),
        "cut" => designs::cut(alloc, words, model, steps),
        "cuts" => designs::cuts(alloc, model, steps),
        "order" => designs::order_line(alloc, model, steps),
        "headroom" => designs::headroom_line(alloc, model, steps),
        _ => of_model_alone(alloc, words, model),
    }
}

/// Answers a question on a valid model that counts no steps, by a copy of the model.
fn of_model_alone(alloc: Global, words: &Words, model: &ValidModel) -> Result<Text, NoMemory> {
    match model.copy(alloc) {
        Ok(copy) => of_copy(alloc, words, &copy),
        Err(no_memory) => Err(no_memory),
    }
}

fn of_copy(alloc: Global, words: &Words, model: &ValidModel) -> Result<Text, NoMemory> {
    match word(words, 1) {
        "task" => valid_models::task_line(alloc, words, model),
        "named" => valid_models::numbers_line(alloc, words, model),
        "groups" => valid_models::groups_line(alloc, words, model),
        "group" => valid_models::group_line(alloc, words, model),
        "table" => tables::table_lines(alloc, words, model),
        "draw" => tables::draw_line(alloc, words, model),
        "phases" => phases::phases_lines(alloc, model),
        _ => said(alloc, "no such question"),
    }
}

/// Answers a question on a valid model and a trace, whose file is named by the word behind the
/// model's.
fn of_trace<S: Shelf>(
    alloc: Global,
    words: &Words,
    model: &ValidModel,
    shelf: &mut S,
) -> Result<Text, NoMemory> {
    match shelf.fetch(alloc, word(words, 3), u64::MAX) {
        Ok(bytes) => runs::of_trace(alloc, words, model, bytes.as_slice()),
        Err(fault) => unfetched(alloc, fault),
    }
}
