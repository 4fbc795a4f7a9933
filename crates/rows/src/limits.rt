//! Which fetch and which write of a case fail, and what its sink has room for.
use crate::fault::Fault;

/// How many bytes a sink holds, where a case doesn't say.
const ROOM: usize = 1 << 20;

/// Which calls fail, and the limits of the sink.
#[derive(Clone, Copy)]
pub(crate) struct Limits {
    /// The number of the fetch that fails, from 0.
    pub(crate) fetch: Option<u64>,
    /// The number of the write that fails, from 0.
    pub(crate) write: Option<u64>,
    /// How many bytes the sink holds.
    pub(crate) room: usize,
    /// How many bytes it takes at a time.
    pub(crate) step: usize,
}

impl Limits {
    /// Makes limits at which no call fails and the sink holds `ROOM` bytes, all at once.
    pub(crate) fn none() -> Self {
        Limits {
            fetch: None,
            write: None,
            room: ROOM,
            step: usize::MAX,
        }
    }

    /// Sets the limit that the word names to the number that the rest spells. Another word and
    /// another rest are refused.
    pub(crate) fn set(&mut self, word: &str, rest: &str) -> Result<(), Fault> {
        match word {
            "fetch" => self.fetch = Some(number_of(rest)?),
            "write" => self.write = Some(number_of(rest)?),
            "room" => self.room = number_of(rest)? as usize,
            "step" => self.step = number_of(rest)? as usize,
            _ => return Err(Fault::Refused("an unknown line")),
        }
        Ok(())
    }
}

/// Reads a decimal number of a line. Any other text is refused.
pub(crate) fn number_of(text: &str) -> Result<u64, Fault> {
    match text.parse::<u64>() {
        Ok(number) => Ok(number),
        Err(_) => Err(Fault::Refused("no number")),
    }
}
