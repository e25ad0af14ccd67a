//! The logical lines of what a reader gives, over bytes, in whatever pieces they come and whatever the reader does.
//!
//! The library is `dotenvy`, which depends on this crate.
#![tactic(auto)]

mod buffer;
pub mod input;
pub mod lines;
pub mod physical_line;
