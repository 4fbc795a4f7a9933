ghost use Rattle.std.specs.Prelude.{◌≡◌, All, IfOk};
ghost use Rattle.cl_model.specs.Answers.{Gives};
ghost use Rattle.cl_edit.specs.{Edited.edited, Ranges.IsEditInRange, Reading.edits_of};
ghost use Rattle.cl_engine.specs.Content.{ModelAnd};
ghost use Rattle.cl_top.specs.{Commands.{IsOutcomeOf, Apply.{all_written, refused_alone}, Edit.edits_refused}, Inner.Applying.ApplyTo};

use super::edit::{bad_line, refused};
use super::migrate::migrated;
use crate::Command;
use cl_edit::{EditLines, EditsFault, ListedEdit, edit_valid};
use cl_engine::Outcome;
use cl_model::{ModelFault, Refusal, ValidModel};
use cl_text::Text;
use cl_time::NoMemory;
use std::alloc::Global;

/// Finds the outcome of `apply` for a valid model and the text of a list of edits: a text of the
/// least version from 2 on that can say the model after all edits, which is read as that model; or
/// the first bad line of the text; or the first edit that is refused.
#[tactic(auto, unfolding(crate::specs::Commands::command_meaning))]
pub(super) fn applied(alloc: Global, model: ValidModel, text: &[u8]) -> Result<Outcome, NoMemory>
    ensures { IfOk result (IsOutcomeOf Command.Apply (ModelAnd model text.now)) }
{
    match EditLines::of(alloc, text) {
        Ok(lines) => apply_lines(alloc, model, lines),
        Err(EditsFault::BadLine { line }) => bad_line(alloc, line),
        Err(EditsFault::NoMemory) => Err(NoMemory),
    }
}

/// Makes the outcome whose whole text is the refusal of line `number`.
fn refused_alone(alloc: Global, number: u64, refusal: Refusal) -> Result<Outcome, NoMemory>
    ensures { IfOk result (λ outcome. outcome ≡ edits_refused number refusal) }
{
    refused(alloc, Text::new(alloc), number, refusal)
}

/// Applies an edit of a list, and drops it.
fn apply_listed(
    alloc: Global,
    model: ValidModel,
    listed: ListedEdit,
) -> Result<ValidModel, ModelFault>
    requires { IsEditInRange listed.edit }
    ensures { Gives result (edited model listed.edit) }
{
    edit_valid(alloc, model, &listed.edit)
}

/// Makes the edits one after the other and writes the model after the last one, or only the first
/// refusal.
fn apply_lines(
    alloc: Global,
    mut model: ValidModel,
    mut lines: EditLines<'_>,
) -> Result<Outcome, NoMemory>
    requires { All IsEditInRange (edits_of lines) }
    ensures { IfOk result (ApplyTo all_written refused_alone model lines.entry) }
{
    while let Some(listed) = lines.next(alloc)? {
        let line = listed.line;
        match apply_listed(alloc, model, listed) {
            Ok(changed) => model = changed,
            Err(ModelFault::Refused(refusal)) => return refused_alone(alloc, line, refusal),
            Err(ModelFault::NoMemory) => return Err(NoMemory),
        }
    }
    migrated(alloc, &model)
}
