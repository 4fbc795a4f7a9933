//! What callers may rely on of each model that was read, and of each valid one.
pub mod alike;
pub mod groups;
pub mod links;
pub mod names;
pub mod reading;
pub mod tasks;
