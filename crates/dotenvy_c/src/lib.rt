//! Environment files for C, and for every language that calls C: bytes in, bytes out, nothing kept between two calls.
//!
//! `bindings/c/dotenvy.h` declares these calls, and says what their callers have to guarantee.
#![tactic(auto)]

pub mod asked;
pub mod block;
pub mod buffer;
pub mod calls;
pub mod edit;
pub mod items;
pub mod laws;
pub mod load;
pub mod options;
pub mod places;
pub mod status;
pub mod texts;
pub mod warnings;
pub mod whole;
pub mod write;
