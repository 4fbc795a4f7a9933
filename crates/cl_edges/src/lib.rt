//! Tests of the edges of the program over a machine of values (its start, its files and its
//! output), and of commands over shelves and sinks of every kind; and `run_surely`, the call over a
//! shelf and a sink that never fail. What a file of cases can say is tested by the program `rows`.
#![tactic(auto)]

#[cfg(test)]
mod calls;
#[cfg(test)]
mod files;
#[cfg(test)]
mod kinds;
#[cfg(test)]
mod machine;
#[cfg(test)]
mod models;
#[cfg(test)]
mod outputs;
#[cfg(test)]
mod starts;
mod sure;
#[cfg(test)]
mod traces;

pub use sure::run_surely;
