//! What holds of traces, whatever the code does.
pub mod lengths;
pub mod stretches;
pub mod traces;
