//! The words of the command line of the process.

use std::alloc::{Alloc, Allocator};
use std::env::Env;
use std::{env, io};

/// The words of the command line, without the program's name. The error has kind `InvalidData` if a word is not UTF-8,
/// else an allocation failed.
///
/// ```
/// // of the command line `dotenvy_run --list`: the word `--list`
/// let words = process_words(&rt)?;
/// ```
pub fn process_words<A: Allocator + Clone, R: Alloc<A = A> + Env>(
    rt: &R,
) -> io::Result<Vec<String<A>, A>> {
    let mut words = Vec::new(rt.alloc());
    for word in env::args(rt)?.skip(1) {
        words.push(word)?;
    }
    Ok(words)
}
