//! The text of findings, in each form in which the program `dotenvy_check` reports them: a line for a reader, a command
//! for GitHub, a line of JSON, or a result of SARIF. What is told of a file stands on one line.
#![tactic(auto)]

pub mod format;
mod github;
mod json_line;
pub mod laws;
mod members;
pub mod one_line;
mod report;
pub mod reports;
mod rules;
pub mod sarif;
pub mod severity;
mod text;
mod uri;
