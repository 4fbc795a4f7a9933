//! What holds of hops, of timings of groups and of bounds, whatever the timings come from.
pub mod growth;
pub mod lags;
pub mod timings;
