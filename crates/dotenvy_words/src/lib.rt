//! What the command lines of programs share: arguments, what was found of them, and why words are refused.
#![tactic(auto)]

pub mod arguments;
pub mod command_line;
pub mod found;
pub mod mistake;
pub mod reading;
