//! Job tables and models that are drawn with the numbered words of a seed, and job tables from
//! wishes.
#![tactic(auto)]

mod counting;
mod drawing;
mod draws;
mod generating;
pub mod laws;
mod limits;
mod marks;
mod names;
mod spans;
mod table;
mod wishing;

pub use counting::count_executions;
pub use generating::generate;
pub use limits::{MOST_EXECUTIONS, MOST_RUN_TICKS};
pub use table::{DrawFault, draw_table};
pub use wishing::{Wishes, wished_table};
