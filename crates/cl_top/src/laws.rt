//! Laws of commands: what a reader may rely on, whatever the code does.
pub mod numbers;
pub mod outcomes;
