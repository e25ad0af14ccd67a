//! What is read before anything is written.

ghost use Rattle.std.specs.Prelude.{◌≤◌, vec_len};

use dotenvy::Environment;
use std::alloc::Allocator;

/// The contents of files, and the environment before them.
#[derive(Drop)]
pub struct Inputs<A: Allocator> {
    /// The name of each file, as it is printed.
    pub names: Vec<String<A>, A>,
    /// The contents of each file.
    pub contents: Vec<Vec<u8, A>, A>,
    /// The environment.
    pub env: Environment<A>,
    // Each file has a name.
    ghost has_names: { vec_len contents ≤ vec_len names },
}
