//! Single lines of a document, each of which is appended to a text.
ghost use Rattle.std.specs.Prelude.{◌≡◌, ◌++◌, All, OnOk};
ghost use Rattle.cl_model.specs.Name.{IsName};
ghost use Rattle.cl_write.specs.Inner.Lines.{word_line, number_line, number_line_if, line_unless_zero, line_when_true, next_word, words_line, words_line_if};

use crate::entries::{Written, put_all};
use cl_model::{Key, List, Name};
use cl_text::Text;
use cl_time::NoMemory;

/// Appends the line of a key and a word, which must need no escape.
#[tactic(auto, unfolding(crate::specs::Inner::Lines::word_line))]
pub(crate) fn put_word(text: &mut Text, key: Key, word: &[u8]) -> Result<(), NoMemory>
    ensures { OnOk result (text.new ≡ text.old ++ word_line key word.now) }
{
    text.put(key.word().as_bytes())?;
    text.put(b" = \"")?;
    text.put(word)?;
    text.put(b"\"\n")
}

/// Appends the line of a key and a name.
pub(crate) fn put_name(text: &mut Text, key: Key, name: &Name) -> Result<(), NoMemory>
    ensures printed { OnOk result (text.new ≡ text.old ++ word_line key name.now) }
    ensures named { IsName name.now }
{
    put_word(text, key, name.as_slice())
}

/// Appends the line of a key and a number.
#[tactic(auto, unfolding(crate::specs::Inner::Lines::number_line))]
pub(crate) fn put_number(text: &mut Text, key: Key, number: u64) -> Result<(), NoMemory>
    ensures { OnOk result (text.new ≡ text.old ++ number_line key number) }
{
    text.put(key.word().as_bytes())?;
    text.put(b" = ")?;
    text.put_number(number)?;
    text.put(b"\n")
}

/// Appends the line of a key and a number, if one is given.
pub(crate) fn put_number_if(text: &mut Text, key: Key, number: Option<u64>) -> Result<(), NoMemory>
    ensures { OnOk result (text.new ≡ text.old ++ number_line_if key number) }
{
    match number {
        Some(number) => put_number(text, key, number),
        None => Ok(()),
    }
}

/// Appends the line of a key and a number, unless the number is 0.
pub(crate) fn put_unless_zero(text: &mut Text, key: Key, number: u64) -> Result<(), NoMemory>
    ensures { OnOk result (text.new ≡ text.old ++ line_unless_zero key number) }
{
    if number == 0 {
        Ok(())
    } else {
        put_number(text, key, number)
    }
}

/// Appends the line of a key and `true`, if the value is true.
#[tactic(auto, unfolding(crate::specs::Inner::Lines::true_line))]
pub(crate) fn put_when_true(text: &mut Text, key: Key, value: bool) -> Result<(), NoMemory>
    ensures { OnOk result (text.new ≡ text.old ++ line_when_true key value) }
{
    if value {
        text.put(key.word().as_bytes())?;
        text.put(b" = true\n")
    } else {
        Ok(())
    }
}

/// A name that follows another one in an array: the quote that closes the other, a comma, a quote
/// and the name, but not the quote that closes it.
impl Written for Name {
    ghost is_named = { IsName };

    ghost printed = { next_word };

    #[tactic(auto, unfolding(crate::specs::Inner::Lines::next_word))]
    fn put(&self, text: &mut Text) -> Result<(), NoMemory> {
        text.put(b"\", \"")?;
        text.put(self.as_slice())
    }
}

/// Appends the line of a key and an array of names, the first of which is `name`.
#[tactic(auto, unfolding(crate::specs::Inner::Lines::words_line))]
fn put_some_names(text: &mut Text, key: Key, name: &Name, names: &[Name]) -> Result<(), NoMemory>
    ensures printed { OnOk result (text.new ≡ text.old ++ words_line key name.now names.now) }
    ensures named { OnOk result (IsName name.now × All IsName names.now) }
{
    text.put(key.word().as_bytes())?;
    text.put(b" = [\"")?;
    text.put(name.as_slice())?;
    put_all(text, names)?;
    text.put(b"\"]\n")
}

/// Appends the line of a key and an array of names, unless there are none.
pub(crate) fn put_names(text: &mut Text, key: Key, names: &List<Name>) -> Result<(), NoMemory>
    ensures printed { OnOk result (text.new ≡ text.old ++ words_line_if key names.now) }
    ensures named { OnOk result (All IsName names.now) }
{
    match names.as_slice().split_first() {
        Some((name, names)) => put_some_names(text, key, name, names),
        None => Ok(()),
    }
}
