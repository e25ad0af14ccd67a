//! What the tests of this repository stand on: readers and writers that play a list of steps, an allocator that refuses
//! one request, and one notation of files, steps and answers, which docs/ROWS.md describes.
#![tactic(auto)]

pub mod answers;
pub mod environment;
pub mod file;
pub mod looks;
pub mod notation;
pub mod process;
pub mod reader;
pub mod system;
pub mod system_fault;
pub mod telling;
pub mod writer;

pub use test_rationed::Rationed;
