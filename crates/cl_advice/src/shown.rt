//! Bytes of a file as they are shown: in printable ASCII alone, and cut where they are too long.
ghost use Rattle.std.specs.Prelude.{◌≡◌, ◌<◌, ◌++◌, length, OnOk};
ghost use Rattle.cl_advice.specs.Shown.{is_plain, hex_digit, shown_byte, shown_in, shown, quoted};

use cl_text::Text;
use cl_time::NoMemory;

/// The most bytes that show a text, without the `..` that ends one that is cut.
pub const MOST_SHOWN: usize = 64;

/// The most bytes that show a string between its quotes, without the `..` that ends one that is
/// cut.
pub const MOST_QUOTED: usize = 62;

/// Whether a byte is shown as it is.
fn is_plain(byte: u8) -> bool
    ensures { result ≡ is_plain byte }
{
    0x20 <= byte && byte <= 0x7E && !(byte == b'"' || byte == b'\\')
}

/// Returns the hexadecimal digit of a number, in upper case.
fn hex_digit(n: u8) -> u8
    requires { n < 16 }
    ensures { result ≡ hex_digit n }
{
    if n < 10 { b'0' + n } else { 0x37 + n }
}

/// Returns how many bytes show a byte.
fn width(byte: u8) -> usize
    ensures { result ≡ length (shown_byte byte) }
{
    if is_plain(byte) { 1 } else { 4 }
}

/// Appends a byte as it is shown: itself, or `\xHH`.
fn put_byte(text: &mut Text, byte: u8) -> Result<(), NoMemory>
    ensures { OnOk result (text.new ≡ text.old ++ shown_byte byte) }
{
    if is_plain(byte) {
        text.put(&[byte])
    } else {
        text.put(&[b'\\', b'x', hex_digit(byte / 16 % 16), hex_digit(byte % 16)])
    }
}

/// Appends bytes as they are shown, in at most `room` bytes, and `..` where they need more.
fn put_in(text: &mut Text, room: usize, bytes: &[u8]) -> Result<(), NoMemory>
    ensures { OnOk result (text.new ≡ text.old ++ shown_in room bytes.now) }
{
    let mut left = room;
    for byte in bytes {
        let wide = width(*byte);
        if wide > left {
            return text.put(b"..");
        }
        put_byte(text, *byte)?;
        left -= wide;
    }
    Ok(())
}

/// Appends a text as it is shown.
pub fn put_shown(text: &mut Text, bytes: &[u8]) -> Result<(), NoMemory>
    ensures { OnOk result (text.new ≡ text.old ++ shown bytes.now) }
{
    put_in(text, MOST_SHOWN, bytes)
}

/// Appends a string as it is shown, in quotes.
pub fn put_quoted(text: &mut Text, bytes: &[u8]) -> Result<(), NoMemory>
    ensures { OnOk result (text.new ≡ text.old ++ quoted bytes.now) }
{
    text.put(b"\"")?;
    put_in(text, MOST_QUOTED, bytes)?;
    text.put(b"\"")
}
