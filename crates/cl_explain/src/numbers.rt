//! Numbers that may exceed 64 bits, as decimals.
ghost use Rattle.std.specs.Prelude.{◌≡◌, ◌++◌, OnOk, decimal};
ghost use Rattle.std.specs.Fmt.{signed_decimal};

use cl_text::Text;
use cl_time::NoMemory;
use itoa::Buffer;

/// Appends a number to a text, in decimal. After `NoMemory` the text is as it was.
pub fn put_wide(text: &mut Text, number: u128) -> Result<(), NoMemory>
    ensures { OnOk result (text.new ≡ text.old ++ decimal number) }
{
    let mut buffer = Buffer::new();
    text.put(buffer.format(number).as_bytes())
}

/// Appends a signed number to a text, in decimal, with a minus sign where it is negative. After
/// `NoMemory` the text is as it was.
pub fn put_signed(text: &mut Text, number: i128) -> Result<(), NoMemory>
    ensures { OnOk result (text.new ≡ text.old ++ signed_decimal number) }
{
    let mut buffer = Buffer::new();
    text.put(buffer.format(number).as_bytes())
}
