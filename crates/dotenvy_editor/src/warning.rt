//! What an edit tells beside the new bytes.

use std::alloc::{Allocator, Global};

/// Something to know of an edit that was made. Lines are counted from 1, as they were before the edit.
///
/// ```
/// // of the lines A=1 and B=$A, unset(alloc, bytes, "A", dialect) tells Warning::Mentions of B, in line 2
/// ```
#[derive(Debug, Drop)]
pub enum Warning<A: Allocator = Global> {
    /// The value of this name, which the line declares, mentions the key, itself or through names of lines before it.
    Mentions { name: String<A>, line: u64 },
    /// A load stops at this line, before it comes to the key.
    StopsBefore { line: u64 },
    /// These lines went: a later assignment of the key, or lines of a value with a fault.
    Removed { first: u64, last: u64 },
    /// The value has a dollar and a name, which are text in the file: nothing is substituted.
    Dollar,
}

/// A file that was edited.
///
/// ```
/// let edited = set(alloc, b"A=1\n", "A", "2", how)?;
/// // edited.bytes is `A=2` and a line feed
/// ```
#[derive(Drop)]
pub struct Edited<A: Allocator = Global> {
    /// The new bytes of the file.
    pub bytes: Vec<u8, A>,
    /// What to know of the edit: of each kind in the order of the file's lines.
    pub warnings: Vec<Warning<A>, A>,
}
