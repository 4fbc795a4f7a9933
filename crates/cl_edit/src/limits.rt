//! The limits of a list of edits.

/// The most edits in a text, including reports.
pub const MOST_EDITS: usize = 4_096;

/// The most reports in a text.
pub const MOST_REPORTS: usize = 64;
