//! Spans of numbers, as they are written.
ghost use Rattle.std.specs.Prelude.{◌≡◌, ◌++◌, codes, decimal, OnOk};
ghost use Rattle.cl_traces.specs.SaidOfRules.{span_words};

use cl_text::Text;
use cl_time::NoMemory;
use itoa::Buffer;

/// Appends a number, which may exceed 64 bits.
fn put_wide(text: &mut Text, number: u128) -> Result<(), NoMemory>
    ensures { OnOk result (text.new ≡ text.old ++ decimal number) }
{
    let mut buffer = Buffer::new();
    text.put(buffer.format(number).as_bytes())
}

/// Appends two numbers, as the ends of a span.
fn put_both(text: &mut Text, low: u128, high: u128) -> Result<(), NoMemory>
    ensures { OnOk result (text.new ≡ text.old ++ (decimal low ++ codes " to " ++ decimal high)) }
{
    put_wide(text, low)?;
    text.put(b" to ")?;
    put_wide(text, high)?;
    Ok(())
}

/// Appends the numbers from one to another, and one alone where they are the same.
pub(crate) fn put_span(text: &mut Text, low: u128, high: u128) -> Result<(), NoMemory>
    ensures { OnOk result (text.new ≡ text.old ++ span_words low high) }
{
    if low == high {
        put_wide(text, low)
    } else {
        put_both(text, low, high)
    }
}
