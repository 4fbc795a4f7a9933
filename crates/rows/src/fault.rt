//! Why files of cases can't be run to their end.
use cl_time::NoMemory;
use std::alloc::{AllocError, AllocFailed};
use std::io;

/// Why files of cases can't be run to their end.
#[derive(Clone, Copy, Debug)]
pub(crate) enum Fault {
    /// Memory ran out.
    NoMemory,
    /// The output failed.
    Output,
    /// The arguments, a file of cases or a line of it is refused, for this reason.
    Refused(&'static str),
}

impl From<AllocError> for Fault {
    fn from(_: AllocError) -> Self {
        Fault::NoMemory
    }
}

impl<T: Drop> From<AllocFailed<T>> for Fault {
    fn from(_: AllocFailed<T>) -> Self {
        Fault::NoMemory
    }
}

impl From<NoMemory> for Fault {
    fn from(_: NoMemory) -> Self {
        Fault::NoMemory
    }
}

impl From<io::Error> for Fault {
    fn from(_: io::Error) -> Self {
        Fault::Output
    }
}
