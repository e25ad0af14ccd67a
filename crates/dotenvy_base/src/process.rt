//! The entries of the process's environment.

use std::alloc::{Alloc, AllocError, Allocator};
use std::env::{Env, FillError};
use std::str;

/// Pairs of a name and a value, as a process has them: unchecked, and a name may be there twice.
pub type Entries<A> = Vec<(String<A>, String<A>), A>;

/// The names and values of the process, in its order. Each entry is cut at its first `=`.
///
/// An entry that is not UTF-8 or has no `=` is skipped. The error says that an allocation failed.
pub fn text_entries<A: Allocator + Clone, R: Env + Alloc<A = A>>(
    rt: &R,
) -> Result<Entries<A>, AllocError> {
    let mut entries = Vec::new(rt.alloc());
    for index in 0..usize::MAX {
        let Some(entry) = entry_at(rt, index)? else {
            break;
        };
        let Ok(text) = str::from_utf8(&entry) else {
            continue;
        };
        if let Some((name, value)) = text.split_once('=') {
            let name = String::from_str(rt.alloc(), name)?;
            entries.push((name, String::from_str(rt.alloc(), value)?))?;
        }
    }
    Ok(entries)
}

// The bytes of the entry with this index, or `None` after the last one. `std::env::vars` returns an error if one entry
// isn't text, which would hide all others.
fn entry_at<A: Allocator, R: Env + Alloc<A = A>>(
    rt: &R,
    index: usize,
) -> Result<Option<Vec<u8, A>>, AllocError> {
    let mut len = 256usize;
    for _ in 0..usize::BITS {
        let mut entry = Vec::new(rt.alloc());
        entry.resize(len, 0u8)?;
        match rt.var_at(index, entry.as_mut_slice()) {
            Ok(filled) => {
                entry.truncate(filled);
                return Ok(Some(entry));
            }
            Err(FillError::NotPresent) => return Ok(None),
            Err(FillError::TooLong) => len = len.saturating_mul(2),
        }
    }
    Err(AllocError)
}
