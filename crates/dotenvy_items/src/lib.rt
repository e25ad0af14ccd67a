//! What logical lines say: the pairs and faults of a reader one at a time, the two loads, and pairs in their written
//! form.
//!
//! The library is `dotenvy`, which stands on this crate and gives on what is public of it.
#![tactic(auto)]

pub mod iter;
pub mod keys;
pub mod laws;
mod loads;
pub mod meaning;
pub mod parse;
pub mod remembered;
pub mod written;
