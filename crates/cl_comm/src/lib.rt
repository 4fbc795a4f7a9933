//! Access to labels: when runnables read and write, as a trait whose laws hold in every legal run.
#![tactic(auto)]

mod access;
mod any_access;
mod explicit;
mod implicit;
pub mod laws;
mod spot;
mod timed;

pub use access::Access;
pub use any_access::AnyAccess;
pub use explicit::Explicit;
pub use implicit::Implicit;
pub use spot::{Spot, Window, spot_of};
pub use timed::Timed;
