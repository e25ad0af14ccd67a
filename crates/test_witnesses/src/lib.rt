//! Readers, writers and a system of which contracts know everything, and callers whose results over them are exact.
//!
//! They are here to be proved: a contract that no such reader can meet is refused here.
#![tactic(auto)]

pub mod readings;
pub mod sink;
pub mod source;
pub mod starts;
pub mod written;
