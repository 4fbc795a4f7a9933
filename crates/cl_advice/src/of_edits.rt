//! What to mend in a refused edit, by the model that the edit makes.
ghost use Rattle.std.specs.Prelude.{◌≡◌, ◌++◌, OnOk, IfSome};
ghost use Rattle.std.specs.Option.{option_copied};
ghost use Rattle.cl_model.specs.Ranges.{IsInRange};
ghost use Rattle.cl_advice.specs.{Mend.mended_line, OfEdits.{entry_name, named_words, named_entry_line, named_runnable_line, named_lines, full_line, edit_mend, edit_advice_text}, Measured.said_if};

use crate::found::put_key_word;
use crate::hop::put_handed;
use crate::keys::word_of;
use crate::known::put_known_line;
use crate::measured::put_measured;
use crate::mend::{code_words, put_words};
use crate::want::Want;
use crate::wanted::put_limit_line;
use crate::with::{
    chain_name, core_name, label_name, name_of, put_with_lines, requirement_name, runnable_of,
    stimulus_name, task_name,
};
use cl_model::{Code, Name, Part, Place, Refusal, SystemModel};
use cl_text::Text;
use cl_time::NoMemory;

/// Finds the name of the entry of a section that contains a place.
fn entry_name(model: &SystemModel, place: Place) -> Option<&Name>
    ensures { option_copied result ≡ entry_name model.now place.part place.item }
{
    match place.part {
        Part::Top => None,
        Part::Core => core_name(model, place),
        Part::Stimulus => stimulus_name(model, place),
        Part::Label => label_name(model, place),
        Part::Task => task_name(model, place),
        Part::Chain => chain_name(model, place),
        Part::Requirement => requirement_name(model, place),
    }
}

/// Appends the rest of the line of a name: the name, and its number counted from 1.
fn put_named(text: &mut Text, name: &Name, number: u32) -> Result<(), NoMemory>
    ensures { OnOk result (text.new ≡ text.old ++ named_words name.now number) }
{
    text.put(b" ")?;
    text.put(name.as_slice())?;
    text.put(b" ")?;
    text.put_number(u64::from(number) + 1)?;
    text.put(b"\n")?;
    Ok(())
}

/// Appends the line of the entry that contains a place, if there is one.
fn put_entry(text: &mut Text, model: &SystemModel, place: Place) -> Result<(), NoMemory>
    ensures { OnOk result (text.new ≡ text.old ++ named_entry_line model.now place) }
{
    match (entry_name(model, place), place.item) {
        (Some(name), Some(number)) => {
            text.put(b"entry ")?;
            text.put(place.part.word().as_bytes())?;
            put_named(text, name, number)
        }
        _ => Ok(()),
    }
}

/// Appends the line of the runnable that contains a place, if there is one.
fn put_runnable(text: &mut Text, model: &SystemModel, place: Place) -> Result<(), NoMemory>
    ensures { OnOk result (text.new ≡ text.old ++ named_runnable_line model.now place) }
{
    match (name_of(runnable_of(model, place)), place.sub) {
        (Some(name), Some(number)) => {
            text.put(b"runnable")?;
            put_named(text, name, number)
        }
        _ => Ok(()),
    }
}

/// Appends the lines of the entry and of the runnable that contain a place, nothing where there is
/// no model.
fn put_names(text: &mut Text, model: Option<&SystemModel>, place: Place) -> Result<(), NoMemory>
    ensures { OnOk result
        (text.new ≡ text.old ++ said_if (λ model. named_lines model place) (option_copied model.entry)) }
{
    match model {
        Some(model) => {
            put_entry(text, model, place)?;
            put_runnable(text, model, place)
        }
        None => Ok(()),
    }
}

/// Appends how many entries a section may have, where an edit adds one to a full section.
fn put_full(text: &mut Text, part: Part, code: Code) -> Result<(), NoMemory>
    ensures { OnOk result (text.new ≡ text.old ++ full_line part code) }
{
    match code {
        Code::M10 => put_limit_line(text, Want::of_section(part)),
        _ => Ok(()),
    }
}

/// Appends the line of what to write, if there is something.
fn put_mend(text: &mut Text, model: Option<&SystemModel>, refusal: Refusal) -> Result<(), NoMemory>
    ensures { OnOk result (text.new ≡ text.old
        ++ mended_line (edit_mend (option_copied model.entry) refusal.place refusal.code)) }
{
    match refusal.code {
        Code::M45 => put_handed(text, model, refusal.place),
        other => put_words(text, code_words(other)),
    }
}

/// Appends the advice on a refused edit: the entry and the runnable that the refusal is about, the
/// key, what is wanted, which names there are, what it clashes with, and what to write, each on a
/// line of its own where there is something to say. `model` is the model that the edit makes, where
/// it makes one: the refusal is the first of that model, or that of the edit where there is none.
///
/// Fails with `NoMemory` where there is no memory for the text. Then the text ends with a prefix of
/// the advice, possibly empty.
pub fn put_edit_advice(
    text: &mut Text,
    model: Option<&SystemModel>,
    refusal: Refusal,
) -> Result<(), NoMemory>
    requires { IfSome (option_copied model) IsInRange }
    ensures { OnOk result
        (text.new ≡ text.old ++ edit_advice_text (option_copied model.entry) refusal) }
{
    put_names(text, model, refusal.place)?;
    put_key_word(text, word_of(refusal.place.key))?;
    put_full(text, refusal.place.part, refusal.code)?;
    put_measured(text, model, refusal)?;
    put_known_line(text, model, refusal)?;
    put_with_lines(text, model, refusal)?;
    put_mend(text, model, refusal)?;
    Ok(())
}
