//! The lines of bytes that aren't a document: what to write, and what the parser says.
ghost use Rattle.std.specs.Prelude.{◌≡◌, ◌++◌, codes, find, OnOk};
ghost use Rattle.std.specs.Option.{option_copied};
ghost use Rattle.std.specs.List.{prefix_len, slice_split};
ghost use Rattle.cl_model.specs.Place.{part_text};
ghost use Rattle.cl_text.specs.Line.{line};
ghost use Rattle.cl_advice.specs.Unread.{is_space, has_byte, first_sign, has_returns_alone, instead_mend, opens_singly, single_part, first_single, doubled_in, message_line, instead_line, doubled_lines, mend_lines, unread_text};

use crate::shown::put_shown;
use cl_model::Part;
use cl_place::without_mark;
use cl_text::Text;
use cl_time::NoMemory;

fn is_space(byte: u8) -> bool
    ensures { result ≡ is_space byte }
{
    byte == b' ' || byte == b'\t' || byte == b'\n' || byte == b'\r'
}

fn has_byte(bytes: &[u8], byte: u8) -> bool
    ensures { result ≡ has_byte byte bytes.now }
{
    bytes.iter().any(|other| *other == byte)
}

/// Counts the blanks that bytes begin with.
fn spaces(bytes: &[u8]) -> usize
    ensures { result ≡ prefix_len is_space bytes.now }
{
    bytes.iter().take_while(|byte| is_space(**byte)).count()
}

/// Returns the first byte that is no blank, or 0.
fn first_sign(bytes: &[u8]) -> u8
    ensures { result ≡ first_sign bytes.now }
{
    let bytes = without_mark(bytes);
    bytes.get(spaces(bytes)).copied().unwrap_or(0)
}

/// Whether lines end with a carriage return alone.
fn has_returns_alone(bytes: &[u8]) -> bool
    ensures { result ≡ has_returns_alone bytes.now }
{
    !has_byte(bytes, b'\n') && has_byte(bytes, b'\r')
}

/// Says what to write instead of these bytes.
fn instead(bytes: &[u8]) -> &'static [u8]
    ensures { result.now ≡ instead_mend bytes.now }
{
    if first_sign(bytes) == b'<' {
        b"this is XML: docs/amalthea.md says what becomes of it"
    } else if first_sign(bytes) == b'{' {
        b"this is JSON: write TOML"
    } else if has_returns_alone(bytes) {
        b"end lines with LF or CR LF"
    } else {
        b"write TOML 1.1 in UTF-8"
    }
}

/// Returns the header of a section in single brackets.
fn single_header(section: Part) -> &'static [u8]
    ensures { result.now ≡ codes "[" ++ part_text section ++ codes "]" }
{
    match section {
        Part::Top => b"[top]",
        Part::Core => b"[core]",
        Part::Stimulus => b"[stimulus]",
        Part::Label => b"[label]",
        Part::Task => b"[task]",
        Part::Chain => b"[chain]",
        Part::Requirement => b"[requirement]",
    }
}

/// Returns the header of a runnable in an entry of a section, in single brackets.
fn single_runnable(section: Part) -> &'static [u8]
    ensures { result.now ≡ codes "[" ++ part_text section ++ codes ".runnable]" }
{
    match section {
        Part::Top => b"[top.runnable]",
        Part::Core => b"[core.runnable]",
        Part::Stimulus => b"[stimulus.runnable]",
        Part::Label => b"[label.runnable]",
        Part::Task => b"[task.runnable]",
        Part::Chain => b"[chain.runnable]",
        Part::Requirement => b"[requirement.runnable]",
    }
}

/// Whether a word is a header of a section in single brackets, or one of a runnable in it.
fn opens_singly(section: Part, word: &[u8]) -> bool
    ensures { result ≡ opens_singly section word.now }
{
    word == single_header(section) || word == single_runnable(section)
}

/// Finds the first of these sections of which a word is a header in single brackets.
fn opened_of<'a>(sections: &'a [Part], word: &[u8]) -> Option<&'a Part>
    ensures { option_copied result ≡ find (λ section. opens_singly section word.now) sections.now }
{
    sections
        .iter()
        .find(|section| opens_singly(**section, word))
}

/// Finds the section of a header in single brackets.
fn single_part(word: &[u8]) -> Option<Part>
    ensures { result ≡ single_part word.now }
{
    let sections = [
        Part::Core,
        Part::Stimulus,
        Part::Label,
        Part::Task,
        Part::Chain,
        Part::Requirement,
    ];
    opened_of(&sections, word).copied()
}

/// Finds the section of the first header in single brackets.
fn first_single(bytes: &[u8]) -> Option<Part>
    ensures { result ≡ first_single (slice_split is_space bytes.now) }
{
    let mut found = None;
    for word in bytes.split(|byte| is_space(*byte)) {
        found = found.or(single_part(word));
    }
    found
}

/// Finds the section whose header in single brackets stands in a file that has a key twice.
fn doubled_in(bytes: &[u8], message: &str) -> Option<Part>
    ensures { result ≡ doubled_in bytes.now message.now }
{
    if message == "duplicate key" {
        first_single(bytes)
    } else {
        None
    }
}

/// Appends the line of a message.
fn put_message(text: &mut Text, message: &[u8]) -> Result<(), NoMemory>
    ensures { OnOk result (text.new ≡ text.old ++ message_line message.now) }
{
    text.put(b"message ")?;
    put_shown(text, message)?;
    text.put(b"\n")
}

/// Appends the line of what to write instead of these bytes.
fn put_instead(text: &mut Text, bytes: &[u8]) -> Result<(), NoMemory>
    ensures { OnOk result (text.new ≡ text.old ++ instead_line bytes.now) }
{
    text.put(b"mend ")?;
    text.put(instead(bytes))?;
    text.put(b"\n")
}

/// Appends the line of a section as the key.
fn put_section(text: &mut Text, section: &[u8]) -> Result<(), NoMemory>
    ensures { OnOk result (text.new ≡ text.old ++ line (codes "key " ++ section.now)) }
{
    text.put(b"key ")?;
    text.put(section)?;
    text.put(b"\n")
}

/// Appends the line of how each entry of a section begins.
fn put_opening(text: &mut Text, section: &[u8]) -> Result<(), NoMemory>
    ensures { OnOk result (text.new ≡ text.old ++ line (codes "mend each " ++ section.now
        ++ codes " begins with [[" ++ section.now ++ codes "]]")) }
{
    text.put(b"mend each ")?;
    text.put(section)?;
    text.put(b" begins with [[")?;
    text.put(section)?;
    text.put(b"]]")?;
    text.put(b"\n")?;
    Ok(())
}

/// Appends the lines of a section whose header stands in single brackets.
fn put_doubled(text: &mut Text, section: Part) -> Result<(), NoMemory>
    ensures { OnOk result (text.new ≡ text.old ++ doubled_lines section) }
{
    let word = section.word().as_bytes();
    put_section(text, word)?;
    put_opening(text, word)?;
    Ok(())
}

/// Appends what to write.
fn put_mend(text: &mut Text, bytes: &[u8], doubled: Option<Part>) -> Result<(), NoMemory>
    ensures { OnOk result (text.new ≡ text.old ++ mend_lines bytes.now doubled) }
{
    match doubled {
        Some(section) => put_doubled(text, section),
        None => put_instead(text, bytes),
    }
}

/// Appends the advice on bytes that aren't a document: what to write, and what the parser says.
pub(crate) fn put_unread(text: &mut Text, bytes: &[u8], message: &str) -> Result<(), NoMemory>
    ensures { OnOk result (text.new ≡ text.old ++ unread_text bytes.now message.now) }
{
    put_mend(text, bytes, doubled_in(bytes, message))?;
    put_message(text, message.as_bytes())?;
    Ok(())
}
