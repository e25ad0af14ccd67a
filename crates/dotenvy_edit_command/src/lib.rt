//! What the program `dotenvy_edit` does: it edits one file by its words, and replaces it as a whole.
#![tactic(auto)]

mod act;
mod command;
pub mod diff;
pub mod edits;
pub mod failure;
pub mod file;
mod help;
mod loaded;
pub mod replacement;
pub mod run;
mod step;
mod told;
mod warnings;
pub mod words;
