ghost use Rattle.std.specs.Prelude.{◌≡◌, nat_lt, length, All, IfOk, Err};
ghost use Rattle.cl_edit.specs.{Edited.edited, Ranges.IsEditInRange, Reading.edits_of};
ghost use Rattle.cl_engine.specs.declared.files.TheConstants.{FILE_LIMIT};
ghost use Rattle.cl_top.specs.{Commands.CheckFile.{IsAcceptedFile, all_accepted, edit_mended, line_mended, IsOfListFile, IsOfLimitedList}, Inner.{Applying.ApplyTo, ListsMade.{IsTriedAs, IsLeftBy}}};

use super::edit::{bad_line, refused};
use cl_edit::{Change, EditLines, EditsFault, ListedEdit, Version, check_edit};
use cl_engine::{FILE_LIMIT, Outcome};
use cl_lists::{put_bad_line, put_refused_edit};
use cl_model::{ModelFault, Refusal, ValidModel};
use cl_text::Text;
use cl_time::NoMemory;
use std::alloc::Global;

/// What becomes of an edit of a list.
#[derive(Drop)]
pub(crate) enum Tried {
    /// It is accepted, and is this change of the model.
    Accepted(Change),
    /// It is refused, and this is the outcome of the command.
    Stopped(Outcome),
}

/// What an edit of a list leaves.
#[derive(Drop)]
pub(crate) enum Left {
    /// It is accepted, and this is the changed model.
    Model(ValidModel),
    /// It is refused, and this is the outcome of the command.
    Outcome(Outcome),
}

/// Finds the outcome of `check` for a valid model and a list of edits of this version: that it is
/// accepted; or its first bad line, or the first edit that is refused, and what to mend there. A
/// list with more bytes than a model file may have is too long.
pub(super) fn checked_list(
    alloc: Global,
    model: ValidModel,
    version: Version,
    text: &[u8],
) -> Result<Outcome, NoMemory>
    ensures { IfOk result
        (IsOfLimitedList (nat_lt FILE_LIMIT (length text.now)) version model text.now) }
{
    if FILE_LIMIT < text.len() as u64 {
        Outcome::long_file(alloc, 2)
    } else {
        listed(alloc, model, version, text)
    }
}

/// Finds the outcome for a list that isn't too long.
fn listed(
    alloc: Global,
    model: ValidModel,
    version: Version,
    text: &[u8],
) -> Result<Outcome, NoMemory>
    ensures { IfOk result (IsOfListFile version model text.now) }
{
    match EditLines::of(alloc, text) {
        Ok(lines) => try_lines(alloc, model, lines, text),
        Err(EditsFault::BadLine { line }) => mended_line(alloc, version, text, line),
        Err(EditsFault::NoMemory) => Err(NoMemory),
    }
}

/// Makes the outcome of a list whose first bad line is line `number`: what to mend in it.
fn mended_line(
    alloc: Global,
    version: Version,
    text: &[u8],
    number: u64,
) -> Result<Outcome, NoMemory>
    ensures { IfOk result (λ outcome. outcome ≡ line_mended version text.now number) }
{
    let mut outcome = bad_line(alloc, number)?;
    put_bad_line(&mut outcome.text, version, text, number as usize)?;
    Ok(outcome)
}

/// Makes the edits one after the other, up to the first that is refused.
fn try_lines(
    alloc: Global,
    mut model: ValidModel,
    mut lines: EditLines<'_>,
    text: &[u8],
) -> Result<Outcome, NoMemory>
    requires { All IsEditInRange (edits_of lines) }
    ensures { IfOk result (ApplyTo all_accepted (edit_mended text.now) model lines.entry) }
{
    while let Some(listed) = lines.next(alloc)? {
        match make_listed(alloc, model, listed, text)? {
            Left::Model(changed) => model = changed,
            Left::Outcome(outcome) => return Ok(outcome),
        }
    }
    accepted_file(alloc)
}

/// Makes an edit of a list, and drops it.
fn make_listed(
    alloc: Global,
    model: ValidModel,
    listed: ListedEdit,
    text: &[u8],
) -> Result<Left, NoMemory>
    requires { IsEditInRange listed.edit }
    ensures { IfOk result (IsLeftBy text.now model listed) }
{
    make_tried(alloc, model, &listed, text)
}

/// Makes an edit of a list, or the outcome of its refusal.
fn make_tried(
    alloc: Global,
    model: ValidModel,
    listed: &ListedEdit,
    text: &[u8],
) -> Result<Left, NoMemory>
    requires { IsEditInRange listed.now.edit }
    ensures { IfOk result (IsLeftBy text.now model listed.now) }
{
    match try_edit(alloc, &model, listed, text)? {
        Tried::Accepted(change) => {
            let changed = change.make(alloc, model)?;
            Ok(Left::Model(changed))
        }
        Tried::Stopped(outcome) => Ok(Left::Outcome(outcome)),
    }
}

/// Finds which change of the model an edit of a list is, or makes the outcome of its refusal.
fn try_edit(
    alloc: Global,
    model: &ValidModel,
    listed: &ListedEdit,
    text: &[u8],
) -> Result<Tried, NoMemory>
    requires { IsEditInRange listed.now.edit }
    ensures { IfOk result (IsTriedAs text.now model.now listed.now) }
{
    match check_edit(alloc, model, &listed.edit) {
        Ok(change) => Ok(Tried::Accepted(change)),
        Err(ModelFault::Refused(refusal)) => {
            let outcome = mended_edit(alloc, model, listed, text, refusal)?;
            Ok(Tried::Stopped(outcome))
        }
        Err(ModelFault::NoMemory) => Err(NoMemory),
    }
}

/// Makes the outcome of an edit of this model that is refused: what to mend in its line.
fn mended_edit(
    alloc: Global,
    model: &ValidModel,
    listed: &ListedEdit,
    text: &[u8],
    refusal: Refusal,
) -> Result<Outcome, NoMemory>
    requires in_range { IsEditInRange listed.now.edit }
    requires refused { edited model.now listed.now.edit ≡ Err refusal }
    ensures { IfOk result (λ outcome.
        outcome ≡ edit_mended text.now model.now listed.now.line listed.now.edit refusal) }
{
    let mut outcome = refused(alloc, Text::new(alloc), listed.line, refusal)?;
    put_refused_edit(
        &mut outcome.text,
        alloc,
        text,
        listed.line as usize,
        model,
        &listed.edit,
        refusal,
    )?;
    Ok(outcome)
}

/// Makes the outcome of a file with which nothing is wrong.
pub(super) fn accepted_file(alloc: Global) -> Result<Outcome, NoMemory>
    ensures { IfOk result IsAcceptedFile }
{
    let mut text = Text::new(alloc);
    text.put(b"chainlat check 2\naccepted\n")?;
    Ok(Outcome::done(text))
}
