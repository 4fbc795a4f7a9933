//! Lines that stand many times, each time with another number.
use crate::fault::Fault;
use std::alloc::Global;

/// Repeats the lines `count` times, with the number of each time, from 0, in place of each mark.
pub(crate) fn numbered(
    alloc: Global,
    lines: &[u8],
    mark: u8,
    count: u64,
) -> Result<Vec<u8>, Fault> {
    let mut text = Vec::new(alloc);
    for number in 0..count {
        let digits = number.to_string(alloc)?;
        push_numbered(&mut text, lines, mark, digits.as_bytes())?;
    }
    Ok(text)
}

/// Appends the lines with the digits in place of each mark.
fn push_numbered(text: &mut Vec<u8>, lines: &[u8], mark: u8, digits: &[u8]) -> Result<(), Fault> {
    for byte in lines {
        if *byte == mark {
            text.extend_from_slice(digits)?;
        } else {
            text.push(*byte)?;
        }
    }
    Ok(())
}
