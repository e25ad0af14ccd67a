//! An allocator for tests: it refuses one chosen request for memory, and passes every other on.
//!
//! A test that makes a call once for each number, until the call meets no refusal, has seen what
//! stands after each of its requests was refused.
#![tactic(auto)]

use std::alloc::{AllocError, Allocator};
use std::cell::Cell;

/// Passes requests to the allocator `B`, all but the one that it was made to refuse.
///
/// It is lent to the values under test, as `&Rationed<B>`, since a borrowed allocator is one too:
///
/// ```
/// let ration = Rationed::refusing(rt.alloc(), 2);
/// let first = String::from_str(&ration, "kept")?;
/// assert!(rt; String::from_str(&ration, "refused").is_err());
/// assert!(rt; ration.has_refused());
/// ```
pub struct Rationed<B: Allocator> {
    inner: B,
    /// The requests that may still be made, the refused one among them: 0 once it was refused.
    remaining: Cell<u64>,
}

impl<B: Allocator> Rationed<B> {
    /// Refuses the request of this number, counted from 1, and no other; with 0 it counts as having
    /// refused from the start.
    pub fn refusing(inner: B, number: u64) -> Rationed<B> {
        Rationed {
            inner,
            remaining: Cell::new(number),
        }
    }

    /// Whether the request was made, and so refused.
    pub fn has_refused(&self) -> bool {
        self.remaining.get() == 0
    }
}

impl<B: Allocator> Drop for Rationed<B> {
    fn drop(self) {
        let Self {
            inner: _,
            remaining: _,
        } = self;
    }
}

/// Counts one request, and tells whether it is the one to refuse.
fn refuses(remaining: &Cell<u64>) -> bool {
    let before = remaining.get();
    remaining.set(before.saturating_sub(1));
    before == 1
}

unsafe impl<B: Allocator> Allocator for Rationed<B> {
    ghost dealloc_token = { λ heap ty ptr. B.dealloc_token heap.inner ty ptr };

    fn allocate(&self, size: usize, align: usize) -> Result<*mut u8, AllocError> {
        if refuses(&self.remaining) {
            return Err(AllocError);
        }
        self.inner.allocate(size, align)
    }

    unsafe fn deallocate(&self, ptr: *mut u8, size: usize, align: usize) {
        self.inner.deallocate(ptr, size, align);
    }
}
