//! Calls with each request for memory refused in turn.
//!
//! No contract can say that memory is found, so a call that always answers `Memory` meets its contract. These tests
//! make a call again and again, and refuse its first request, its second, and so on, until one run meets no refusal:
//! then it must succeed, and before that it must answer `Memory` and leave what it promises to leave. Rows ask the same
//! of the calls that they can make.

mod environments;
mod processes;
mod searches;
mod written;

use dotenvy::{Error, Result};
use std::alloc::{Allocator, Global};
use std::process::Abort;
use std::test::Fail;
use test_support::Rationed;

/// More requests than any call of these tests makes.
pub const MOST_REQUESTS: u64 = 200;

/// Makes a run with the first request refused, one with the second, and so on, up to the run that
/// tells that it is done.
pub fn refuse_in_turn<F: FnMut(&Rationed<Global>) -> std::result::Result<bool, Fail>>(
    rt: &impl Abort,
    alloc: Global,
    mut run: F,
) -> std::result::Result<(), Fail>
    requires { F.IsAlwaysCallable run }
{
    for number in 1..MOST_REQUESTS {
        let ration = Rationed::refusing(alloc, number);
        if run(&ration)? {
            assert!(rt; number > 1, "no request was made");
            return Ok(());
        }
    }
    panic!(rt; "each run met a refusal")
}

/// Whether a request was refused: then the answer must be `Memory`, and otherwise it must not.
pub fn is_refused<T, A: Allocator>(
    rt: &impl Abort,
    ration: &Rationed<Global>,
    answer: &Result<T, A>,
) -> bool {
    let is_memory = matches!(answer, Err(Error::Memory(_)));
    assert_eq!(rt;
        is_memory,
        ration.has_refused(),
        "is the answer `Memory`, was one refused"
    );
    is_memory
}

/// Whether a call succeeded: it must where nothing was refused, and must answer `Memory` where
/// something was.
pub fn is_done<T, A: Allocator>(
    rt: &impl Abort,
    ration: &Rationed<Global>,
    answer: &Result<T, A>,
) -> bool {
    if is_refused(rt, ration, answer) {
        return false;
    }
    match answer {
        Ok(_) => true,
        Err(error) => panic!(rt; "in place of an answer: {error}"),
    }
}
