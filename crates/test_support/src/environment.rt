//! Environments in memory of any allocator.

use dotenvy::{Environment, Result};
use std::alloc::{AllocError, Allocator};

/// A copy of a text in memory of this allocator.
pub fn copied<A: Allocator + Clone>(
    alloc: &A,
    text: &str,
) -> std::result::Result<String<A>, AllocError> {
    String::from_str(alloc.clone()?, text)
}

/// An environment of these names and values.
pub fn environment_of<A: Allocator + Clone>(
    alloc: A,
    pairs: &[(String, String)],
) -> Result<Environment<A>, A> {
    let mut list = Vec::new(alloc.clone()?);
    for (name, value) in pairs {
        let name = copied(&alloc, name.as_str())?;
        list.push((name, copied(&alloc, value.as_str())?))?;
    }
    Environment::from_pairs(alloc, list)
}
