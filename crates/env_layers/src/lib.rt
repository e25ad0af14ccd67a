//! Layers of settings: several environment files over one environment, each of them taken whole or not at all.
#![tactic(auto)]

pub mod laws;
mod layers;
mod missing;

pub use layers::{Layers, Mode};
pub use missing::Missing;
