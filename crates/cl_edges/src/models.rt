//! Two models, as texts.

/// A model without an entry.
pub(crate) const EMPTY: &str = r#"format = "chainlat"
version = 1
"#;

/// A model with one sporadic task.
pub(crate) const SPORADIC: &str = r#"format = "chainlat"
version = 1

[[core]]
name = "c0"

[[stimulus]]
name = "e"
kind = "sporadic"
least = 5
greatest = 8

[[task]]
name = "S"
core = "c0"
stimulus = "e"
priority = 1
access = "implicit"

[[task.runnable]]
name = "s"
least = 1
greatest = 1
"#;
