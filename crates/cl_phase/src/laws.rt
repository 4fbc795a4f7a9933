//! What holds of phases and of the tight bounds of groups of every sound system.
pub mod complete;
pub mod delays;
pub mod phases_agree;
pub mod safety;
pub mod sums;
