//! What programs do with their standard streams: they read one to its end, and say texts on another.
#![tactic(auto)]

pub mod reading;
pub mod telling;
