//! What reading and loading need: errors, environments, sources and sinks, and the search for a file.
//!
//! Programs use the library `dotenvy`, which re-exports what they need of this crate.
#![tactic(auto)]

pub mod environment;
pub mod errors;
pub mod laws;
pub mod output;
mod process;
pub mod search;
pub mod source;
