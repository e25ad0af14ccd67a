//! Pairs, written for other readers of environment files.
#![tactic(auto)]

pub mod declared;
mod docker;
mod exec;
pub mod export;
mod kubernetes;
pub mod laws;
mod lines;
mod object;
pub mod refusal;
mod reserved;
mod shell;
mod systemd;
pub mod target;
mod texts;
pub mod worked;
