//! What the program `dotenvy_export` does: it reads environment files, and writes what they declare for another reader.
#![tactic(auto)]

mod command;
pub mod export;
pub mod failure;
mod files;
mod help;
mod inputs;
pub mod laws;
mod options;
mod reading;
pub mod run;
mod targets;
mod told;
pub mod words;
