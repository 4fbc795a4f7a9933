//! The text of the headroom of a model.
ghost use Rattle.std.specs.Prelude.{◌≡◌, ◌++◌, Some, OnOk, IfOk};
ghost use Rattle.cl_designs.specs.Headroom.{percent_line, headroom_text, IsHeadroomTextOf};

use cl_model::ValidModel;
use cl_text::Text;
use cl_time::{NoMemory, Steps};
use cl_tune::headroom;
use std::alloc::Global;
use std::sync::ledger::Ledger;

/// Makes the text of the headroom of a model: a title, and a line with the greatest percentage,
/// from 1 to 1,000, by which all greatest execution times may be scaled so that the model stays in
/// range, no task is late and each requirement is met. The line is `none` where 1 percent doesn't
/// keep that.
///
/// The tasks are asked for at most ten percentages. Where there are requirements, a copy of the
/// model is analysed for each of these that leaves no task late. `NoMemory` comes where there is no
/// memory for the questions of the tasks, for a copy, for its findings or for the text; it leaves
/// nothing.
pub fn headroom_text<L: Ledger>(
    alloc: Global,
    model: &ValidModel,
    steps: &mut Steps<L>,
) -> Result<Text, NoMemory>
    ensures { IfOk result (IsHeadroomTextOf model.now) }
{
    let percent = headroom(alloc, model, steps)?;
    text_of(alloc, percent)
}

/// Makes the text of an answer.
fn text_of(alloc: Global, percent: Option<u64>) -> Result<Text, NoMemory>
    ensures { IfOk result (λ text. text ≡ headroom_text percent) }
{
    let mut text = Text::new(alloc);
    text.put(b"chainlat headroom 1\n")?;
    put_percent(&mut text, percent)?;
    Ok(text)
}

/// Puts the line of an answer.
fn put_percent(text: &mut Text, percent: Option<u64>) -> Result<(), NoMemory>
    ensures { OnOk result (text.new ≡ text.old ++ percent_line percent) }
{
    match percent {
        Some(percent) => put_percentage(text, percent),
        None => text.put(b"none\n"),
    }
}

/// Puts the line of a percentage.
fn put_percentage(text: &mut Text, percent: u64) -> Result<(), NoMemory>
    ensures { OnOk result (text.new ≡ text.old ++ percent_line (Some percent)) }
{
    text.put(b"percent ")?;
    text.put_number(percent)?;
    text.put(b"\n")
}
