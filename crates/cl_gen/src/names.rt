//! The names in a generated model.
ghost use Rattle.std.specs.Prelude.{◌≡◌, ◌+◌, ◌*◌, ◌<◌, ◌≤◌, ◌^◌, ◌++◌, ◌∷◌, [], true, length, decimal, IfOk};
ghost use Rattle.std.specs.List.{list_all};
ghost use Rattle.cl_model.specs.Name.{is_name_byte};
ghost use Rattle.cl_gen.specs.Generated.{numbered, label_name, runnable_name, labels_read};

use arrayvec::ArrayString;
use cl_model::{LONGEST_NAME, List, Name};
use cl_time::NoMemory;
use itoa::Buffer;
use std::alloc::Global;

/// Makes the name of a number between two pieces of letters, which have at most two bytes together.
fn spelled(letter: &str, number: u64, rest: &str) -> Name
    requires letter { list_all is_name_byte letter.now ≡ true }
    requires rest { list_all is_name_byte rest.now ≡ true }
    requires short { length letter.now + length rest.now ≤ 2 }
    ensures { result ≡ letter.now ++ decimal number ++ rest.now }
{
    let mut text = ArrayString::<LONGEST_NAME>::new();
    text.push_str(letter);
    text.push_str(Buffer::new().format(number));
    text.push_str(rest);
    Name::read(text.as_str().as_bytes()).unwrap()
}

/// Makes the name of a letter and a number.
pub(crate) fn numbered(letter: &str, number: u64) -> Name
    requires letter { list_all is_name_byte letter.now ≡ true }
    requires short { length letter.now ≤ 2 }
    ensures { result ≡ numbered letter.now number }
{
    spelled(letter, number, "")
}

/// Makes the name of a label, by its number.
#[tactic(auto, unfolding(crate::specs::Generated::label_name))]
pub(crate) fn label_name(label: u64) -> Name
    ensures { result ≡ label_name label }
{
    let letter = if label % 2 == 0 { "m" } else { "l" };
    numbered(letter, label / 2)
}

/// Makes the name of a runnable, by its number.
#[tactic(auto, unfolding(crate::specs::Generated::runnable_name))]
pub(crate) fn runnable_name(runnable: u64) -> Name
    ensures { result ≡ runnable_name runnable }
{
    let letter = if runnable % 2 == 0 { "a" } else { "b" };
    spelled("t", runnable / 2, letter)
}

/// Lists the label that a runnable reads: none for runnable 0.
pub(crate) fn labels_read(alloc: Global, runnable: u64) -> Result<List<Name>, NoMemory>
    ensures { IfOk result (λ labels. labels ≡ labels_read runnable) }
{
    let mut labels = List::new(alloc);
    if runnable > 0 {
        labels.push(label_name(runnable - 1))?;
    }
    Ok(labels)
}

/// Lists the one label that a runnable writes.
pub(crate) fn labels_written(alloc: Global, runnable: u64) -> Result<List<Name>, NoMemory>
    ensures { IfOk result (λ labels. labels ≡ label_name runnable ∷ []) }
{
    let mut labels = List::new(alloc);
    labels.push(label_name(runnable))?;
    Ok(labels)
}
