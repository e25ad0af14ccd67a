//! A pair that is written while memory is refused: then none of it is.

use crate::refused::{MOST_REQUESTS, is_done, refuse_in_turn};
use dotenvy::{Plain, is_key};
use std::alloc::Global;
use std::process::Abort;
use std::test::Fail;
use test_support::Rationed;

/// Writes a pair of this text; whether nothing was refused, and what was written.
fn writes(
    rt: &impl Abort,
    alloc: Global,
    ration: &Rationed<Global>,
    text: &str,
) -> (bool, Vec<u8>) {
    let mut writer = Plain::new(Vec::new(alloc));
    let key = "K";
    assert!(rt; is_key(key));
    let answer = dotenvy::write_pair(ration, &mut writer, key, text);
    (is_done(rt, ration, &answer), writer.into_inner())
}

#[test]
fn write_pair(rt: HostRuntime) -> Result<(), Fail> {
    refuse_in_turn(&rt, rt.alloc(), |ration| {
        let (is_done, output) = writes(&rt, rt.alloc(), ration, "a\"b$c\\d");
        let want = if is_done {
            "K=\"a\\\"b\\$c\\\\d\"\n"
        } else {
            ""
        };
        assert_eq!(rt; output.as_slice(), want.as_bytes());
        Ok(is_done)
    })
}

/// How many requests it makes to write a pair of this text.
fn requests(rt: &impl Abort, alloc: Global, text: &str) -> u64 {
    for number in 1..MOST_REQUESTS {
        let ration = Rationed::refusing(alloc, number);
        let (is_done, _) = writes(rt, alloc, &ration, text);
        if is_done {
            return number - 1;
        }
    }
    panic!(rt; "each run met a refusal")
}

#[test]
fn a_pair_is_written_with_one_request(rt: HostRuntime) -> Result<(), Fail> {
    let alloc = rt.alloc();
    let long = "a\"$\\".repeat(alloc, 2_500)?;
    for text in ["", "1", "a\"b$c\\d", long.as_str()] {
        assert_eq!(rt; requests(&rt, alloc, text), 1, "{} bytes", text.len());
    }
    Ok(())
}
