//! What the program `dotenvy_run` does: it runs a command in the environment that files give, or lists that
//! environment.
#![tactic(auto)]

pub mod command_line;
pub mod failure;
pub mod laws;
pub mod loaded;
pub mod prepared;
pub mod run;
mod start;
