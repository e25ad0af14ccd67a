//! The format of environment files: its definitions and their laws, and the code that reads the text of one line.
//!
//! This crate knows of no environment and of no reader. Programs use the library `dotenvy`, which re-exports what they
//! need of it.
#![tactic(auto)]

mod blocks;
pub mod classes;
pub mod dialect;
pub mod laws;
pub mod statement;
pub mod text;
pub mod texts;
pub mod value;
pub mod walk;
