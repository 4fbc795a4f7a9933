//! The line of the names that there are.
ghost use Rattle.std.specs.Prelude.{◌≡◌, ◌++◌, OnOk, map, flat_map, take, codes};
ghost use Rattle.std.specs.Option.{option_copied};
ghost use Rattle.cl_advice.specs.{declared.known.TheConstants.MOST_KNOWN, Known.{more_text, known_names, known_by, known_line}};

use cl_model::{Code, Named, Refusal, SystemModel};
use cl_text::Text;
use cl_time::NoMemory;

/// The most names that are said to be known.
pub const MOST_KNOWN: usize = 12;

/// Appends a blank and the name of an entry.
fn put_name<T: Named>(text: &mut Text, entry: &T) -> Result<(), NoMemory>
    ensures { OnOk result (text.new ≡ text.old ++ (codes " " ++ T.name_of entry.now)) }
{
    text.put(b" ")?;
    text.put(entry.name().as_slice())
}

/// Appends a blank and the name of each of these entries.
fn put_names<T: Named>(text: &mut Text, entries: &[T]) -> Result<(), NoMemory>
    ensures { OnOk result
        (text.new ≡ text.old ++ flat_map (λ entry. codes " " ++ T.name_of entry) entries.now) }
{
    for entry in entries {
        put_name(text, entry)?;
    }
    Ok(())
}

/// Appends how many entries there are, where not all of them are named.
fn put_more(text: &mut Text, count: usize) -> Result<(), NoMemory>
    ensures { OnOk result (text.new ≡ text.old ++ more_text count) }
{
    if count > MOST_KNOWN {
        text.put(b" .. of ")?;
        text.put_number(count as u64)
    } else {
        Ok(())
    }
}

/// Returns the first entries, as many as are named.
fn first_few<T>(entries: &[T]) -> &[T]
    ensures { result.now ≡ take MOST_KNOWN entries.now }
{
    if entries.len() > MOST_KNOWN {
        &entries[..MOST_KNOWN]
    } else {
        entries
    }
}

/// Appends the line of the first names of these entries, nothing where there is none.
pub fn put_known_names<T: Named>(text: &mut Text, entries: &[T]) -> Result<(), NoMemory>
    ensures { OnOk result (text.new ≡ text.old ++ known_names (map T.name_of entries.now)) }
{
    if entries.is_empty() {
        return Ok(());
    }
    text.put(b"known")?;
    put_names(text, first_few(entries))?;
    put_more(text, entries.len())?;
    text.put(b"\n")
}

/// Appends the line of the names that a model has, by the code of a refusal.
fn put_by(text: &mut Text, model: &SystemModel, code: Code) -> Result<(), NoMemory>
    ensures { OnOk result (text.new ≡ text.old ++ known_by model.now code) }
{
    match code {
        Code::M29 => put_known_names(text, model.cores.as_slice()),
        Code::M30 => put_known_names(text, model.stimuli.as_slice()),
        Code::M37 | Code::M38 => put_known_names(text, model.labels.as_slice()),
        Code::M46 => put_known_names(text, model.chains.as_slice()),
        _ => Ok(()),
    }
}

/// Appends the line of the names that there are, where the model names something that isn't there.
pub(crate) fn put_known_line(
    text: &mut Text,
    model: Option<&SystemModel>,
    refusal: Refusal,
) -> Result<(), NoMemory>
    ensures { OnOk result (text.new ≡ text.old ++ known_line (option_copied model.entry) refusal) }
{
    match model {
        Some(model) => put_by(text, model, refusal.code),
        None => Ok(()),
    }
}
