//! What is said of an edit of a list that is refused.
ghost use Rattle.std.specs.Prelude.{◌≡◌, ◌++◌, OnOk};
ghost use Rattle.cl_edit.specs.Ranges.{IsEditInRange};
ghost use Rattle.cl_advice.specs.OfEdits.{edit_advice_text};
ghost use Rattle.cl_lists.specs.RefusedEdits.{model_made, mend_by_code, refused_edit_text};

use crate::found::put_found_line;
use crate::other_kind::put_other_kind;
use crate::unknown::put_unknown_name;
use cl_advice::put_edit_advice;
use cl_edit::{Edit, Version, changed_model};
use cl_model::{Code, ModelFault, Refusal, ValidModel};
use cl_text::Text;
use cl_time::NoMemory;
use std::alloc::Global;

/// Appends what to mend in an edit by the model that it makes, or by the refusal alone where it
/// makes none.
fn put_by_model(
    text: &mut Text,
    alloc: Global,
    model: &ValidModel,
    edit: &Edit,
    refusal: Refusal,
) -> Result<(), NoMemory>
    requires { IsEditInRange edit.now }
    ensures { OnOk result
        (text.new ≡ text.old ++ edit_advice_text (model_made model.now edit.now) refusal) }
{
    match changed_model(alloc, model, edit) {
        Ok(changed) => put_edit_advice(text, Some(&changed), refusal),
        Err(ModelFault::Refused(_)) => put_edit_advice(text, None, refusal),
        Err(ModelFault::NoMemory) => Err(NoMemory),
    }
}

/// Appends what to mend in an edit, by the code of its refusal.
fn put_by_code(
    text: &mut Text,
    alloc: Global,
    model: &ValidModel,
    edit: &Edit,
    refusal: Refusal,
) -> Result<(), NoMemory>
    requires { IsEditInRange edit.now }
    ensures { OnOk result
        (text.new ≡ text.old ++ mend_by_code model.now edit.now refusal refusal.code) }
{
    match refusal.code {
        Code::E2 => put_unknown_name(text, alloc, model.plain(), edit),
        Code::E3 => put_other_kind(text, edit),
        _ => put_by_model(text, alloc, model, edit, refusal),
    }
}

/// Appends what is said of an edit of a valid model that is refused: what stands in its line, which
/// has this number, counted from 1, and what to mend. It is the name that isn't there (E2), the kind
/// of stimulus (E3), the room in a section (M10), and else what is to be mended in the model that
/// the edit makes. Of a requirement whose chain isn't there, which is such a model, it is the chain.
///
/// Fails with `NoMemory` where there is no memory for that model, for the names of the runnables or
/// for the text. Then the text ends with a prefix of what is said, possibly empty.
pub fn put_refused_edit(
    text: &mut Text,
    alloc: Global,
    list: &[u8],
    number: usize,
    model: &ValidModel,
    edit: &Edit,
    refusal: Refusal,
) -> Result<(), NoMemory>
    requires { IsEditInRange edit.now }
    ensures { OnOk result
        (text.new ≡ text.old ++ refused_edit_text list.now number model.now edit.now refusal) }
{
    put_found_line(text, Version::Two, list, number)?;
    put_by_code(text, alloc, model, edit, refusal)?;
    Ok(())
}
