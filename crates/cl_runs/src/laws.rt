//! What holds of the legal runs of sound systems and of their job chains, and that valid models are
//! sound.
pub mod arrivals;
pub mod chains;
pub mod deadlines;
pub mod extension;
pub mod held;
pub mod jobs;
pub mod moments;
pub mod order;
pub mod parts;
pub mod patterns;
pub mod progress;
pub mod soundness;
pub mod table;
