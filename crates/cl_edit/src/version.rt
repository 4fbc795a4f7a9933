//! The versions of lists of edits.

/// A version of lists of edits, which the first line of a list says.
#[derive(Clone, Copy, PartialEq, Eq)]
pub enum Version {
    One,
    /// Lists of version 2 may have comments, empty lines, further blanks and CR LF, and more kinds of
    /// edits.
    Two,
}
