//! What the `main` of each program does: it takes the words of the process, runs the program on them, and ends with its
//! status.
#![tactic(auto)]

mod process_words;
pub mod program;
