//! Which runnable of a hop lacks the label that the hop names.
ghost use Rattle.std.specs.Prelude.{◌≡◌, ◌<◌, ◌++◌, OnOk, codes};
ghost use Rattle.std.specs.Option.{option_copied, option_or};
ghost use Rattle.cl_model.specs.{Named.has_name, declared.refusal.Code.TheVariants.M45};
ghost use Rattle.cl_advice.specs.{Hop.{runnable_of_hop, label_of_hop, lacking_words, lacking_between}, Mend.{code_mend, mended_line, handed_or_both}};

use crate::with::{Sought, found_by, item_if, step_name};
use cl_model::{List, Name, Place, RunnableDef, SystemModel};
use cl_text::Text;
use cl_time::NoMemory;

/// Returns the writer (0) or the reader (1) of the hop at a place.
fn runnable_of_hop(model: &SystemModel, place: Place, behind: usize) -> Option<&RunnableDef>
    requires { behind < 2 }
    ensures { option_copied result ≡ runnable_of_hop model.now place behind }
{
    match step_name(model, place, behind) {
        Some(name) => found_by(model, Sought::Named, name),
        None => None,
    }
}

/// Returns the label of the hop at a place.
fn label_of_hop(model: &SystemModel, place: Place) -> Option<&Name>
    ensures { option_copied result ≡ label_of_hop model.now place }
{
    match item_if(&model.chains, place.item) {
        Some(chain) => item_if(&chain.labels, place.spot),
        None => None,
    }
}

fn has_name(label: &Name, names: &List<Name>) -> bool
    ensures { result ≡ has_name label.now names.now }
{
    names.iter().any(|name| label == name)
}

/// Appends the line of what to write: the runnable that lacks a label is to have it, or another
/// label is to be named.
fn put_lacking(
    text: &mut Text,
    lacking: &Name,
    verb: &[u8],
    label: &Name,
    writer: &Name,
    reader: &Name,
) -> Result<(), NoMemory>
    ensures { OnOk result (text.new ≡ text.old
        ++ (codes "mend " ++ lacking_words lacking.now verb.now label.now writer.now reader.now ++ codes "\n")) }
{
    text.put(b"mend let ")?;
    text.put(lacking.as_slice())?;
    text.put(verb)?;
    text.put(label.as_slice())?;
    text.put(b", or name a label that ")?;
    text.put(writer.as_slice())?;
    text.put(b" writes and ")?;
    text.put(reader.as_slice())?;
    text.put(b" reads\n")
}

/// Appends what to write where both lack the label, or no one knows.
fn put_both(text: &mut Text) -> Result<(), NoMemory>
    ensures { OnOk result (text.new ≡ text.old ++ mended_line (code_mend M45)) }
{
    text.put(b"mend name a label that the first runnable writes and the second reads\n")
}

/// Appends what to write between a writer and a reader of this label.
fn put_between(
    text: &mut Text,
    label: &Name,
    writer: &RunnableDef,
    reader: &RunnableDef,
) -> Result<(), NoMemory>
    ensures { OnOk result
        (text.new ≡ text.old ++ mended_line (option_or (lacking_between label.now writer.now reader.now) (code_mend M45))) }
{
    let (from, to) = (&writer.name, &reader.name);
    match (
        has_name(label, &writer.writes),
        has_name(label, &reader.reads),
    ) {
        (false, true) => put_lacking(text, from, b" write ", label, from, to),
        (true, false) => put_lacking(text, to, b" read ", label, from, to),
        _ => put_both(text),
    }
}

/// Appends what to write where the label of the hop at a place isn't handed over.
pub(crate) fn put_handed(
    text: &mut Text,
    model: Option<&SystemModel>,
    place: Place,
) -> Result<(), NoMemory>
    ensures { OnOk result
        (text.new ≡ text.old ++ mended_line (handed_or_both (option_copied model.entry) place)) }
{
    let Some(model) = model else {
        return put_both(text);
    };
    let Some(label) = label_of_hop(model, place) else {
        return put_both(text);
    };
    let Some(writer) = runnable_of_hop(model, place, 0) else {
        return put_both(text);
    };
    match runnable_of_hop(model, place, 1) {
        Some(reader) => put_between(text, label, writer, reader),
        None => put_both(text),
    }
}
