//! Lines with a number in them.
ghost use Rattle.std.specs.Prelude.{◌≡◌, ◌++◌, OnOk, decimal};
ghost use Rattle.cl_text.specs.Line.{line};

use cl_model::Name;
use cl_text::Text;
use cl_time::NoMemory;

/// Appends a line of these words with a number between them.
pub(crate) fn put_numbered(
    text: &mut Text,
    before: &[u8],
    number: u64,
    behind: &[u8],
) -> Result<(), NoMemory>
    ensures { OnOk result (text.new ≡ text.old ++ line (before.now ++ decimal number ++ behind.now)) }
{
    text.put(before)?;
    text.put_number(number)?;
    text.put(behind)?;
    text.put(b"\n")?;
    Ok(())
}

/// Appends a line of these words with a number between them, and with a name behind them.
pub(crate) fn put_named(
    text: &mut Text,
    before: &[u8],
    number: u64,
    middle: &[u8],
    name: &Name,
) -> Result<(), NoMemory>
    ensures { OnOk result
        (text.new ≡ text.old ++ line (before.now ++ decimal number ++ middle.now ++ name.now)) }
{
    text.put(before)?;
    text.put_number(number)?;
    text.put(middle)?;
    text.put(name.as_slice())?;
    text.put(b"\n")?;
    Ok(())
}
