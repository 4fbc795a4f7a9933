//! Laws of counted arrivals and of cycles.
pub mod counts;
pub mod cycles;
