//! Lines of a list of edits: their plain form, and which of them say something.
ghost use Rattle.std.specs.Prelude.{◌≡◌, IfOk, OnOk};
ghost use Rattle.cl_edit.specs.{Said.{without_return, without_mark, is_blank, plain, says}, Inner.Words.with_word};

use cl_time::NoMemory;
use std::alloc::Global;

fn is_blank(byte: u8) -> bool
    ensures { result ≡ is_blank byte }
{
    byte == b' ' || byte == b'\t'
}

/// Returns a line without the carriage return that it may end with.
pub(crate) fn without_return(line: &[u8]) -> &[u8]
    ensures { result.now ≡ without_return line.now }
{
    line.strip_suffix(b"\r".as_slice()).unwrap_or(line)
}

/// Returns a text without the byte order mark that it may begin with.
pub(crate) fn without_mark(text: &[u8]) -> &[u8]
    ensures { result.now ≡ without_mark text.now }
{
    text.strip_prefix(b"\xEF\xBB\xBF".as_slice())
        .unwrap_or(text)
}

/// Puts a word behind others, with a blank between them. A word without bytes is none.
fn put_word(plain: &mut Vec<u8>, word: &[u8]) -> Result<(), NoMemory>
    ensures { OnOk result (plain.new.items ≡ with_word plain.old.items word.now) }
{
    if word.is_empty() {
        return Ok(());
    }
    if !plain.is_empty() {
        plain.push(b' ')?;
    }
    plain.extend_from_slice(word)?;
    Ok(())
}

/// Makes the plain form of a line: its words with one blank between each two.
pub(crate) fn plain(alloc: Global, line: &[u8]) -> Result<Vec<u8>, NoMemory>
    ensures { IfOk result (λ it. it.items ≡ plain line.now) }
{
    let mut plain = Vec::new(alloc);
    for word in without_return(line).split(|byte| is_blank(*byte)) {
        put_word(&mut plain, word)?;
    }
    Ok(plain)
}

/// Whether a line of this plain form says something: it has words, and is no comment.
pub(crate) fn says(plain: &[u8]) -> bool
    ensures { result ≡ says plain.now }
{
    plain.first().is_some_and(|byte| *byte != b'#')
}
