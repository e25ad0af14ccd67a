//! What the program `dotenvy_check` does: it reads environment files, and says where something is wrong, and what to
//! type.
#![tactic(auto)]

pub mod check;
mod command;
mod declared;
pub mod failure;
mod file_report;
pub mod folder;
mod help;
pub mod laws;
mod lines;
mod lookup;
pub mod mistake;
pub mod options;
mod report;
pub mod run;
mod schema;
mod watched;
pub mod words;
