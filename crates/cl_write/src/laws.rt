//! What holds of models and their texts.
pub mod texts;
