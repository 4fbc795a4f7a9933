//! The line of a place in the file.
ghost use Rattle.std.specs.Prelude.{◌≡◌, ◌≤◌, ◌++◌, length, OnOk};
ghost use Rattle.cl_advice.specs.Advice.{at_line, AddsPlace};

use cl_place::row_and_column;
use cl_text::Text;
use cl_time::NoMemory;

/// Appends the line of a row and a column.
fn put_at(text: &mut Text, row: u64, column: u64) -> Result<(), NoMemory>
    ensures { OnOk result (text.new ≡ text.old ++ at_line row column) }
{
    text.put(b"at ")?;
    text.put_number(row)?;
    text.put(b" ")?;
    text.put_number(column)?;
    text.put(b"\n")?;
    Ok(())
}

/// Appends the line of a place in these bytes.
pub(crate) fn put_position(text: &mut Text, bytes: &[u8], place: usize) -> Result<(), NoMemory>
    requires { place ≤ length bytes.now }
    ensures { OnOk result (AddsPlace bytes.now place text.old text.new) }
{
    let (row, column) = row_and_column(&bytes[..place]);
    put_at(text, row as u64, column as u64)?;
    Ok(())
}
