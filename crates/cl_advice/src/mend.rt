//! The line of what to write instead.
ghost use Rattle.std.specs.Prelude.{◌≡◌, ◌++◌, ◌==◌, ◌&&◌, nat_le, Some, codes, option_map, OnOk};
ghost use Rattle.std.specs.Option.{option_copied};
ghost use Rattle.toml.specs.View.{view, table_view};
ghost use Rattle.cl_advice.specs.{Mend.{runnable_key_mend, task_key_mend, plural_mend, top_key_mend, part_key_mend, unknown_mend, section_mend, array_mend, kind_mend, says_word, word_mend, code_mend, mend_text, mended_line, mend_line}, Sites.value_in};
ghost use Rattle.cl_model.specs.{declared.refusal.Code.TheVariants.M4, Reading.version_in};

use crate::hop::put_handed;
use crate::keys::{is_listed, runnable_keys, task_keys, unknown_key, version_in};
use crate::sites::value_in;
use crate::want::Want;
use cl_model::{Code, Key, Part, Place, Refusal, SystemModel};
use cl_text::Text;
use cl_time::NoMemory;
use toml::{Table, Value};

/// Says what to write instead of an unknown key of a runnable.
fn runnable_key(word: &str) -> &'static [u8]
    ensures { result.now ≡ runnable_key_mend word.now }
{
    if is_listed(task_keys(), word) {
        b"keys of a task stand before its [[task.runnable]]"
    } else {
        b"take the key out, or write one of these"
    }
}

/// Says what to write instead of an unknown key of a task.
fn task_key(word: &str) -> &'static [u8]
    ensures { result.now ≡ task_key_mend word.now }
{
    if is_listed(runnable_keys(), word) {
        b"keys of a runnable stand in its [[task.runnable]]"
    } else {
        b"take the key out, or write one of these"
    }
}

/// Says which header is meant by the name of a section with an `s` behind it.
fn plural(word: &str) -> Option<&'static [u8]>
    ensures { option_map (λ words. words.now) result ≡ plural_mend word.now }
{
    match word {
        "cores" => Some(b"[[core]]"),
        "stimuluss" => Some(b"[[stimulus]]"),
        "labels" => Some(b"[[label]]"),
        "tasks" => Some(b"[[task]]"),
        "chains" => Some(b"[[chain]]"),
        "requirements" => Some(b"[[requirement]]"),
        _ => None,
    }
}

/// Says what to write instead of an unknown key of the top level.
fn top_key(word: &str) -> &'static [u8]
    ensures { result.now ≡ top_key_mend word.now }
{
    if Key::Runnable.word() == word {
        b"a runnable begins with [[task.runnable]], after its [[task]]"
    } else {
        match plural(word) {
            Some(words) => words,
            None => b"take the key out, or write one of these",
        }
    }
}

fn part_key(part: Part, word: &str) -> &'static [u8]
    ensures { result.now ≡ part_key_mend part word.now }
{
    match part {
        Part::Top => top_key(word),
        Part::Task => task_key(word),
        _ => b"take the key out, or write one of these",
    }
}

/// Says what to write instead of an unknown key in the table around a place.
fn unknown(place: Place, word: &str) -> &'static [u8]
    ensures { result.now ≡ unknown_mend place word.now }
{
    if place.sub.is_some() {
        runnable_key(word)
    } else {
        part_key(place.part, word)
    }
}

/// Says how the entries of a section are written.
fn section(part: Part) -> &'static [u8]
    ensures { result.now ≡ section_mend part }
{
    match part {
        Part::Top => b"write each entry with its header in double brackets",
        Part::Core => b"each core begins with [[core]]",
        Part::Stimulus => b"each stimulus begins with [[stimulus]]",
        Part::Label => b"each label begins with [[label]]",
        Part::Task => b"each task begins with [[task]], and its runnables come after that",
        Part::Chain => b"each chain begins with [[chain]]",
        Part::Requirement => b"each requirement begins with [[requirement]]",
    }
}

/// Says how the array at a key is written, or that of a section where there is no key.
fn array(part: Part, key: Option<Key>) -> &'static [u8]
    ensures { result.now ≡ array_mend part key }
{
    match key {
        None => section(part),
        Some(Key::Runnable) => b"each runnable begins with [[task.runnable]]",
        Some(_) => b"write names in brackets, each in quotes, with commas between them",
    }
}

/// Says how a value of the wanted kind is written.
fn kind(place: Place, want: Want) -> &'static [u8]
    ensures { result.now ≡ kind_mend place want }
{
    match want {
        Want::Name => b"write a name in quotes",
        Want::Number { .. } => b"write a whole number, without quotes, point or unit",
        Want::Format | Want::Access | Want::Kind { .. } | Want::RequirementKind { .. } => {
            b"write one of these words in quotes"
        }
        Want::Boolean => b"write true or false, without quotes",
        Want::Array { .. } => array(place.part, place.key),
        Want::Table => b"begin each entry with its header in double brackets",
    }
}

/// Whether a value is a word.
fn says_word(value: Option<&Value>, word: &str) -> bool
    ensures { result ≡ says_word word.now (option_map (λ value. view value.now) value.entry) }
{
    match value {
        Some(Value::String(found)) => found.as_str() == word,
        _ => false,
    }
}

/// Whether a document of version 1 has the word `burst` at a place.
fn is_late_burst(table: &Table, place: Place) -> bool
    ensures { let ms = table_view table.now in
        result ≡ (says_word (codes "burst") (value_in ms place) && (version_in ms == 1)) }
{
    says_word(value_in(table, place), "burst") && version_in(table) == 1
}

/// Whether a document of version 1 or 2 has the word `delay` at a place.
fn is_late_delay(table: &Table, place: Place) -> bool
    ensures { let ms = table_view table.now in
        result ≡ (says_word (codes "delay") (value_in ms place) && nat_le (version_in ms) 2) }
{
    says_word(value_in(table, place), "delay") && version_in(table) <= 2
}

/// Says what to write instead of a word that isn't known at a place.
fn other_word(table: &Table, place: Place) -> &'static [u8]
    ensures { result.now ≡ word_mend (table_view table.now) place place.part }
{
    match place.part {
        Part::Stimulus => {
            if is_late_burst(table, place) {
                b"version = 2 has bursts"
            } else {
                b"write one of these words in quotes"
            }
        }
        Part::Requirement => {
            if is_late_delay(table, place) {
                b"version = 3 has delay"
            } else {
                b"write one of these words in quotes"
            }
        }
        _ => b"write one of these words in quotes",
    }
}

/// Says what to write for a code that needs nothing else to say it: `None` for M4, M6 and M9, and
/// for the codes of edits.
pub(crate) fn code_words(code: Code) -> Option<&'static [u8]>
    ensures { option_map (λ words. words.now) result ≡ code_mend code }
{
    match code {
        Code::M1 => Some(b"write TOML 1.1 in UTF-8"),
        Code::M2 => Some(b"format = \"chainlat\""),
        Code::M3 => Some(b"version = 1, version = 2 or version = 3"),
        Code::M5 => Some(b"add the key"),
        Code::M7 => Some(b"write 1 to 64 letters, digits, _ . - and nothing else"),
        Code::M8 => Some(b"write a number of this range"),
        Code::M10 => Some(b"take entries out"),
        Code::M20 => Some(b"give one of the two cores another name"),
        Code::M21 => Some(b"give one of the two stimuli another name"),
        Code::M22 => Some(b"give one of the two labels another name"),
        Code::M23 => Some(b"give one of the two tasks another name"),
        Code::M24 => Some(b"give one of the two runnables another name"),
        Code::M25 => Some(b"give one of the two chains another name"),
        Code::M26 => Some(b"give one of the two requirements another name"),
        Code::M27 => Some(b"write an offset below the period"),
        Code::M28 => Some(b"write a greatest distance that isn't below the least"),
        Code::M29 => Some(b"write the name of a [[core]]"),
        Code::M30 => Some(b"write the name of a [[stimulus]]"),
        Code::M31 => Some(b"give one of the two tasks another priority or another core"),
        Code::M32 => Some(b"write a deadline of at most the least distance of the stimulus"),
        Code::M33 => Some(b"write a jitter below the deadline"),
        Code::M34 => Some(b"put at most 128 tasks on a core"),
        Code::M35 => Some(b"add a [[task.runnable]] after the keys of the task"),
        Code::M36 => Some(b"write a greatest time that isn't below the least"),
        Code::M37 | Code::M38 => Some(b"write the name of a [[label]]"),
        Code::M39 => Some(b"write the label once in this list"),
        Code::M40 => Some(b"let one runnable write the label"),
        Code::M41 => Some(b"write at most 8192 runnables in all"),
        Code::M42 => Some(
            b"write a deadline of at most 1000000 least distances of each task of higher priority on the core, less its jitter",
        ),
        Code::M43 => Some(b"write one runnable at least, and one label fewer than runnables"),
        Code::M44 => Some(b"write the name of a [[task.runnable]]"),
        Code::M45 => Some(b"name a label that the first runnable writes and the second reads"),
        Code::M46 => Some(b"write the name of a [[chain]]"),
        Code::M47 => Some(b"write a distance of which count fit the period"),
        _ => None,
    }
}

/// Says what to write instead of the unknown key of the table around a place, if there is one.
fn unknown_words(table: &Table, place: Place) -> Option<&'static [u8]>
    ensures { option_map (λ words. words.now) result ≡ mend_text (table_view table.now) place M4 }
{
    match unknown_key(table, place) {
        Some(word) => Some(unknown(place, word)),
        None => None,
    }
}

/// Says what to write, by the code of a refusal.
fn words(table: &Table, place: Place, code: Code) -> Option<&'static [u8]>
    ensures { option_map (λ words. words.now) result ≡ mend_text (table_view table.now) place code }
{
    match code {
        Code::M4 => unknown_words(table, place),
        Code::M6 => Some(kind(place, Want::at(version_in(table), place))),
        Code::M9 => Some(other_word(table, place)),
        other => code_words(other),
    }
}

/// Appends the line of what to write, if there is something.
pub(crate) fn put_words(text: &mut Text, words: Option<&[u8]>) -> Result<(), NoMemory>
    ensures { OnOk result
        (text.new ≡ text.old ++ mended_line (option_map (λ words. words.now) words.entry)) }
{
    match words {
        Some(words) => {
            text.put(b"mend ")?;
            text.put(words)?;
            text.put(b"\n")
        }
        None => Ok(()),
    }
}

/// Appends the line of what to write instead of what is refused, if there is something.
pub(crate) fn put_mend(
    text: &mut Text,
    table: &Table,
    model: Option<&SystemModel>,
    refusal: Refusal,
) -> Result<(), NoMemory>
    ensures { OnOk result
        (text.new ≡ text.old ++ mend_line (table_view table.now) (option_copied model.entry) refusal) }
{
    match refusal.code {
        Code::M45 => put_handed(text, model, refusal.place),
        _ => put_words(text, words(table, refusal.place, refusal.code)),
    }
}
