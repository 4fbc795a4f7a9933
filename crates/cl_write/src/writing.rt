//! The text of a whole model.
ghost use Rattle.std.specs.Prelude.{◌≡◌, ◌++◌, false, Some, Ok, IfOk, OnOk};
ghost use Rattle.std.specs.List.{concat};
ghost use Rattle.toml.specs.Text.{IsDocumentText};
ghost use Rattle.cl_model.specs.{AreNamed.AreNamed, Ranges.IsInRange, Reading.{document_of, model_of, version_of}};
ghost use Rattle.cl_write.specs.{Writing.{has_delay, version_for, document}, Inner.Printed.{lines_of_model, model_sections, model_text}};

use crate::entries::put_all;
use crate::lines::{put_number, put_word};
use cl_model::{Key, SystemModel};
use cl_text::Text;
use cl_time::NoMemory;
use std::alloc::Global;

/// Writes a model as the text of a model file, which is read as that model, of the least version from
/// 2 on that can say it: 3 where a requirement is on a delay. The model need not be valid, but its
/// counts and numbers must be in range.
///
/// The text is that of the document of the model as the crate `toml` prints it: tables under
/// headers, one key per line, lists of names on one line, keys in alphabetic order. Keys whose
/// value is the default are left out: an offset and a jitter of 0, `whole` where it is false, a
/// deadline that isn't given, empty lists and empty sections.
///
/// Fails with `NoMemory` where there is no memory for the text, of which nothing is left.
pub fn write_model(alloc: Global, model: &SystemModel) -> Result<Text, NoMemory>
    requires { IsInRange model.now }
    ensures reads { IfOk result (λ text. model_of text ≡ Ok model.now) }
    ensures version { IfOk result (λ text. version_of text ≡ version_for model.now) }
    ensures defaults { IfOk result (λ text. document_of text ≡ Some (document model.now)) }
    ensures printed { IfOk result (IsDocumentText false (document model.now)) }
{
    let mut text = Text::new(alloc);
    put_model(&mut text, model)?;
    Ok(text)
}

/// Appends the lines of a model.
#[tactic(auto, unfolding(crate::specs::Inner::Printed::model_text))]
fn put_model(text: &mut Text, model: &SystemModel) -> Result<(), NoMemory>
    ensures printed { OnOk result (text.new ≡ text.old ++ model_text model.now) }
    ensures named { OnOk result (AreNamed model.now) }
{
    put_first_lines(text, model)?;
    put_sections(text, model)
}

/// Whether a requirement of a model is on a delay.
fn has_delay(model: &SystemModel) -> bool
    ensures { result ≡ has_delay model.now }
{
    model
        .requirements
        .as_slice()
        .iter()
        .any(|requirement| requirement.kind.is_delay())
}

/// Returns the least version from 2 on that can say a model.
fn version_for(model: &SystemModel) -> u64
    ensures { result ≡ version_for model.now }
{
    if has_delay(model) { 3 } else { 2 }
}

fn put_first_lines(text: &mut Text, model: &SystemModel) -> Result<(), NoMemory>
    ensures { OnOk result (text.new ≡ text.old ++ concat (lines_of_model model.now)) }
{
    put_word(text, Key::Format, b"chainlat")?;
    put_number(text, Key::Version, version_for(model))
}

/// Appends the sections of a model in alphabetic order, as the crate `toml` does.
fn put_sections(text: &mut Text, model: &SystemModel) -> Result<(), NoMemory>
    ensures printed { OnOk result (text.new ≡ text.old ++ concat (model_sections model.now)) }
    ensures named { OnOk result (AreNamed model.now) }
{
    put_all(text, model.chains.as_slice())?;
    put_all(text, model.cores.as_slice())?;
    put_all(text, model.labels.as_slice())?;
    put_all(text, model.requirements.as_slice())?;
    put_all(text, model.stimuli.as_slice())?;
    put_all(text, model.tasks.as_slice())?;
    Ok(())
}
