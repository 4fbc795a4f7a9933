//! What holds of pictures by their definitions alone.
pub mod pictures;
pub mod rows;
pub mod texts;
