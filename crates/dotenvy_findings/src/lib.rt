//! What is found in the text of one line of an environment file: its fault, told by its cause, and what looks like a
//! mistake. The program `dotenvy_check` reports it.
//!
//! A finding is a kind and a place. It holds no text of the file.
#![tactic(auto)]

pub mod bytes;
pub mod cause;
pub mod characters;
pub mod comments;
mod cursor;
pub mod finding;
pub mod kind;
pub mod laws;
pub mod line;
mod marks;
pub mod named;
pub mod names;
pub mod open;
pub mod place;
pub mod reading;
mod state;
