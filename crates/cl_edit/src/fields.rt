//! Reading single words of an edit: names, numbers, keywords, and lists of names.
ghost use Rattle.std.specs.Prelude.{◌≡◌, [], ◌∷◌, IfOk, IfErr};
ghost use Rattle.cl_edit.specs.{declared.fault.Unread.TheVariants.Bad, Inner.{Parts.{first_read, ReadsPart, ReadsUpTo}, Fields.{name_in, decimal_from, time_in, flag_in, access_in, deadline_in, names_in, requirement_kind_in}}};

use crate::fault::Unread;
use crate::words::Parts;
use cl_model::{AccessKind, List, MOST_TICKS, Name, RequirementKind};
use cl_text::read_decimal;
use std::alloc::Global;

fn name_of(word: &[u8]) -> Result<Name, Unread>
    ensures { ReadsPart result (name_in word.now) }
{
    Name::read(word).ok_or(Unread::Bad)
}

fn number_of(word: &[u8], least: u64, most: u64) -> Result<u64, Unread>
    ensures { ReadsPart result (decimal_from least most word.now) }
{
    let Some(number) = read_decimal(word, most) else {
        return Err(Unread::Bad);
    };
    if least <= number {
        Ok(number)
    } else {
        Err(Unread::Bad)
    }
}

fn time_of(word: &[u8]) -> Result<u64, Unread>
    ensures { ReadsPart result (time_in word.now) }
{
    number_of(word, 1, MOST_TICKS)
}

fn flag_of(word: &[u8]) -> Result<bool, Unread>
    ensures { ReadsPart result (flag_in word.now) }
{
    match word {
        b"yes" => Ok(true),
        b"no" => Ok(false),
        _ => Err(Unread::Bad),
    }
}

fn access_of(word: &[u8]) -> Result<AccessKind, Unread>
    ensures { ReadsPart result (access_in word.now) }
{
    AccessKind::of_word(word).ok_or(Unread::Bad)
}

fn requirement_kind_of(word: &[u8]) -> Result<RequirementKind, Unread>
    ensures { ReadsPart result (requirement_kind_in word.now) }
{
    RequirementKind::of_word(3, word).ok_or(Unread::Bad)
}

fn deadline_of(word: &[u8]) -> Result<Option<u64>, Unread>
    ensures { ReadsPart result (deadline_in word.now) }
{
    match word {
        b"*" => Ok(None),
        _ => Ok(Some(time_of(word)?)),
    }
}

fn names_of(alloc: Global, word: &[u8], most: usize) -> Result<List<Name>, Unread>
    ensures { ReadsPart result (names_in most word.now) }
{
    let mut names = List::new(alloc);
    if word == b"*".as_slice() {
        return Ok(names);
    }
    let mut parts = Parts::of(word, b',');
    while let Some(part) = parts.next() {
        if names.len() == most {
            return Err(Unread::Bad);
        }
        names.push(name_of(part)?)?;
    }
    Ok(names)
}

/// Returns the next word of a line. `Bad` where no word is left.
fn word<'a>(words: &mut Parts<'a>) -> Result<&'a [u8], Unread>
    ensures some { IfOk result (λ word. words.old ≡ word.now ∷ words.new) }
    ensures none { IfErr result (λ fault. (fault ≡ Bad) × (words.old ≡ [])) }
{
    words.next().ok_or(Unread::Bad)
}

/// Reads a name.
pub(crate) fn name(words: &mut Parts<'_>) -> Result<Name, Unread>
    ensures { ReadsUpTo result words.new (first_read name_in words.old) }
{
    name_of(word(words)?)
}

/// Reads a number from `least` to `most`.
pub(crate) fn number(words: &mut Parts<'_>, least: u64, most: u64) -> Result<u64, Unread>
    ensures { ReadsUpTo result words.new (first_read (decimal_from least most) words.old) }
{
    number_of(word(words)?, least, most)
}

/// Reads a time of 1 tick or more.
pub(crate) fn time(words: &mut Parts<'_>) -> Result<u64, Unread>
    ensures { ReadsUpTo result words.new (first_read time_in words.old) }
{
    time_of(word(words)?)
}

/// Reads `yes` or `no`.
pub(crate) fn flag(words: &mut Parts<'_>) -> Result<bool, Unread>
    ensures { ReadsUpTo result words.new (first_read flag_in words.old) }
{
    flag_of(word(words)?)
}

/// Reads a kind of access.
pub(crate) fn access(words: &mut Parts<'_>) -> Result<AccessKind, Unread>
    ensures { ReadsUpTo result words.new (first_read access_in words.old) }
{
    access_of(word(words)?)
}

/// Reads what a requirement limits.
pub(crate) fn requirement_kind(words: &mut Parts<'_>) -> Result<RequirementKind, Unread>
    ensures { ReadsUpTo result words.new (first_read requirement_kind_in words.old) }
{
    requirement_kind_of(word(words)?)
}

/// Reads a deadline in ticks, or `*`, which stands for no deadline.
pub(crate) fn deadline(words: &mut Parts<'_>) -> Result<Option<u64>, Unread>
    ensures { ReadsUpTo result words.new (first_read deadline_in words.old) }
{
    deadline_of(word(words)?)
}

/// Reads up to `most` names with commas between them, or `*`, which stands for no names.
pub(crate) fn names(alloc: Global, words: &mut Parts<'_>, most: usize) -> Result<List<Name>, Unread>
    ensures { ReadsUpTo result words.new (first_read (names_in most) words.old) }
{
    names_of(alloc, word(words)?, most)
}
