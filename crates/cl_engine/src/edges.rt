//! The shelf and the sink of a real machine: its files, and its standard output.
mod file_shelf;
mod out_sink;

pub use file_shelf::FileShelf;
pub use out_sink::OutSink;
