//! The opening of a command's files: fetches them, reads and validates a model file, and fetches a
//! second file only beside a valid model.
ghost use Rattle.std.specs.Prelude.{◌≡◌, ◌<◌, ◌≤◌, length, IfOk};
ghost use Rattle.cl_model.specs.{Ranges.IsInRange, Reading.model_of, Validity.refusal_of};
ghost use Rattle.cl_engine.specs.declared.files.Files.TheVariants as files;
ghost use Rattle.cl_engine.specs.{Calls.{shelf_call, FetchesAlone}, Fetched.Bytes, Files.{word, files_named, file_count}, Inner.Opened.{HasFetched, IsOpenedAs, IsValidatedAs, HasOpened, HasOpenedSecond, HaveOpened, LeavesOthers}};

use crate::words::word_at;
use crate::{FILE_LIMIT, Files, Given, Outcome};
use cl_io::{FetchFault, Shelf, Words};
use cl_model::{Refusal, SystemModel, ValidModel};
use cl_read::{ReadFault, read_model};
use cl_time::NoMemory;
use cl_valid::{ValidFault, validate};
use std::alloc::Global;

/// What the fetch of a file gave.
#[derive(Drop)]
pub(crate) enum FileFetch {
    /// All bytes of the file, at most as many as its limit.
    Bytes(Vec<u8>),
    /// The file couldn't be read or is too long, and this is the outcome of the command.
    Stopped(Outcome),
}

/// What the opening of a model file gave.
#[derive(Drop)]
pub(crate) enum OpenedModel {
    /// The valid model that the file holds.
    Valid(ValidModel),
    /// The bytes of the file, which hold no valid model, and their first refusal.
    Refused(Vec<u8>, Refusal),
    /// The file couldn't be read or is too long, and this is the outcome of the command.
    Stopped(Outcome),
}

/// What the opening of a command's files gave.
#[derive(Drop)]
pub(crate) enum Opened {
    /// What the files hold.
    Held(Given),
    /// A file couldn't be read, is too long or holds no valid model, and this is the outcome of the
    /// command.
    Stopped(Outcome),
}

/// Opens the files that the words behind the verb name: the first one, and then, where the command
/// needs two, the second one, but only where the first holds a valid model.
pub(crate) fn open<S: Shelf>(
    alloc: Global,
    words: &Words,
    named: Files,
    shelf: &mut S,
) -> Result<Opened, NoMemory>
    requires { file_count named < length words.now }
    ensures leaves { LeavesOthers (files_named named) words.now (shelf_call S.held S.faults S.longest shelf.old shelf.new) }
    ensures opened { IfOk result
        (HaveOpened named words.now (shelf_call S.held S.faults S.longest shelf.old shelf.new)) }
{
    match named {
        Files::Nothing => Ok(Opened::Held(Given::Nothing)),
        Files::Content => open_content(alloc, words, shelf),
        Files::Model => open_alone(alloc, words, shelf),
        Files::ModelAnd { limit } => open_two(alloc, words, limit, shelf),
        Files::ContentAnd { limit } => open_either(alloc, words, limit, shelf),
    }
}

/// Fetches the file that word 1 names, whatever its bytes are.
fn open_content<S: Shelf>(alloc: Global, words: &Words, shelf: &mut S) -> Result<Opened, NoMemory>
    requires { 1 < length words.now }
    ensures leaves { FetchesAlone (shelf_call S.held S.faults S.longest shelf.old shelf.new) (word words.now 1) }
    ensures opened { IfOk result
        (HaveOpened files.Content words.now (shelf_call S.held S.faults S.longest shelf.old shelf.new)) }
{
    match fetch_file(alloc, words, 1, FILE_LIMIT, shelf)? {
        FileFetch::Bytes(bytes) => Ok(Opened::Held(Given::Content(bytes))),
        FileFetch::Stopped(outcome) => Ok(Opened::Stopped(outcome)),
    }
}

/// Opens the model file that word 1 names.
fn open_alone<S: Shelf>(alloc: Global, words: &Words, shelf: &mut S) -> Result<Opened, NoMemory>
    requires { 1 < length words.now }
    ensures leaves { FetchesAlone (shelf_call S.held S.faults S.longest shelf.old shelf.new) (word words.now 1) }
    ensures opened { IfOk result
        (HaveOpened files.Model words.now (shelf_call S.held S.faults S.longest shelf.old shelf.new)) }
{
    match open_model(alloc, words, shelf)? {
        OpenedModel::Valid(model) => Ok(Opened::Held(Given::Model(model))),
        OpenedModel::Refused(_, refusal) => {
            Ok(Opened::Stopped(Outcome::model_refused(alloc, refusal)?))
        }
        OpenedModel::Stopped(outcome) => Ok(Opened::Stopped(outcome)),
    }
}

/// Opens the model file that word 1 names and, where it holds a valid model, the file of at most
/// `limit` bytes that word 2 names.
fn open_two<S: Shelf>(
    alloc: Global,
    words: &Words,
    limit: u64,
    shelf: &mut S,
) -> Result<Opened, NoMemory>
    requires { 2 < length words.now }
    ensures leaves { LeavesOthers (files_named (files.ModelAnd limit)) words.now (shelf_call S.held S.faults S.longest shelf.old shelf.new) }
    ensures opened { IfOk result
        (HaveOpened (files.ModelAnd limit) words.now (shelf_call S.held S.faults S.longest shelf.old shelf.new)) }
{
    match open_alone(alloc, words, shelf)? {
        Opened::Held(given) => open_second(alloc, words, limit, given.model(), shelf),
        Opened::Stopped(outcome) => Ok(Opened::Stopped(outcome)),
    }
}

/// Opens the model file that word 1 names and, where it holds a valid model, the file of at most
/// `limit` bytes that word 2 names; else gives the bytes of the first.
fn open_either<S: Shelf>(
    alloc: Global,
    words: &Words,
    limit: u64,
    shelf: &mut S,
) -> Result<Opened, NoMemory>
    requires { 2 < length words.now }
    ensures leaves { LeavesOthers (files_named (files.ContentAnd limit)) words.now (shelf_call S.held S.faults S.longest shelf.old shelf.new) }
    ensures opened { IfOk result
        (HaveOpened (files.ContentAnd limit) words.now (shelf_call S.held S.faults S.longest shelf.old shelf.new)) }
{
    match open_model(alloc, words, shelf)? {
        OpenedModel::Valid(first) => open_second(alloc, words, limit, first, shelf),
        OpenedModel::Refused(bytes, _) => Ok(Opened::Held(Given::Content(bytes))),
        OpenedModel::Stopped(outcome) => Ok(Opened::Stopped(outcome)),
    }
}

/// Fetches the file that word 2 names, of at most `limit` bytes, beside a valid model.
fn open_second<S: Shelf>(
    alloc: Global,
    words: &Words,
    limit: u64,
    model: ValidModel,
    shelf: &mut S,
) -> Result<Opened, NoMemory>
    requires { 2 < length words.now }
    ensures leaves { FetchesAlone (shelf_call S.held S.faults S.longest shelf.old shelf.new) (word words.now 2) }
    ensures opened { IfOk result
        (HasOpenedSecond (shelf_call S.held S.faults S.longest shelf.old shelf.new) (word words.now 2) limit model) }
{
    match fetch_file(alloc, words, 2, limit, shelf) {
        Ok(FileFetch::Bytes(text)) => Ok(Opened::Held(Given::ModelAnd(model, text))),
        // The model is dropped by a call, since a proof that drops it at an exit is dear.
        Ok(FileFetch::Stopped(outcome)) => {
            drop(model);
            Ok(Opened::Stopped(outcome))
        }
        Err(no_memory) => {
            drop(model);
            Err(no_memory)
        }
    }
}

/// Fetches the file that word `place` names, of at most `limit` bytes.
fn fetch_file<S: Shelf>(
    alloc: Global,
    words: &Words,
    place: usize,
    limit: u64,
    shelf: &mut S,
) -> Result<FileFetch, NoMemory>
    requires { place < length words.now }
    ensures leaves { FetchesAlone (shelf_call S.held S.faults S.longest shelf.old shelf.new) (word words.now place) }
    ensures fetched { IfOk result
        (HasFetched (shelf_call S.held S.faults S.longest shelf.old shelf.new) (word words.now place) place limit) }
{
    match shelf.fetch(alloc, word_at(words, place), limit) {
        Ok(bytes) => Ok(FileFetch::Bytes(bytes)),
        Err(FetchFault::Failed) => Ok(FileFetch::Stopped(Outcome::read_fault(
            alloc,
            place as u64,
        )?)),
        Err(FetchFault::Long { .. }) => {
            Ok(FileFetch::Stopped(Outcome::long_file(alloc, place as u64)?))
        }
        Err(FetchFault::NoMemory) => Err(NoMemory),
    }
}

/// Opens the model file that word 1 names: gives its valid model, its bytes and their refusal, or
/// the outcome of its fault.
fn open_model<S: Shelf>(
    alloc: Global,
    words: &Words,
    shelf: &mut S,
) -> Result<OpenedModel, NoMemory>
    requires { 1 < length words.now }
    ensures leaves { FetchesAlone (shelf_call S.held S.faults S.longest shelf.old shelf.new) (word words.now 1) }
    ensures opened { IfOk result
        (HasOpened (shelf_call S.held S.faults S.longest shelf.old shelf.new) (word words.now 1)) }
{
    match fetch_file(alloc, words, 1, FILE_LIMIT, shelf)? {
        FileFetch::Bytes(bytes) => open_bytes(alloc, bytes),
        FileFetch::Stopped(outcome) => Ok(OpenedModel::Stopped(outcome)),
    }
}

/// Makes a valid model of the bytes of a model file, or gives them back with their refusal.
fn open_bytes(alloc: Global, bytes: Vec<u8>) -> Result<OpenedModel, NoMemory>
    ensures { IfOk result (IsOpenedAs (Bytes bytes.items)) }
{
    match read_model(alloc, bytes.as_slice()) {
        Ok(model) => open_read(alloc, bytes, model),
        Err(ReadFault::Refused(refusal)) => Ok(OpenedModel::Refused(bytes, refusal)),
        Err(ReadFault::NoMemory) => Err(NoMemory),
    }
}

/// Validates a model that was read of these bytes: gives the valid model, or the bytes and the
/// model's first refusal.
fn open_read(alloc: Global, bytes: Vec<u8>, model: SystemModel) -> Result<OpenedModel, NoMemory>
    requires { IsInRange model }
    ensures { IfOk result (IsValidatedAs bytes.items model (refusal_of model)) }
{
    match validate(alloc, model) {
        Ok(model) => Ok(OpenedModel::Valid(model)),
        Err((_, ValidFault::Refused(refusal))) => Ok(OpenedModel::Refused(bytes, refusal)),
        Err((_, ValidFault::NoMemory)) => Err(NoMemory),
    }
}
