//! Sets, unsets and renames one key of an environment file, and keeps every other byte.
#![tactic(auto)]

mod candidates;
mod change;
pub mod edit;
mod editing;
mod forms;
pub mod laws;
pub mod lines;
mod mentions;
mod notes;
mod portable;
pub mod refusal;
mod spot;
mod tail;
mod telling;
mod values;
pub mod verbatim;
pub mod warning;
pub mod whole;
pub mod writing;
