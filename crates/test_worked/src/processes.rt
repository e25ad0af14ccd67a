//! The environment of the process.

use crate::shown::{pairs, sees_text};
use dotenvy::Environment;
use std::env;
use std::test::Fail;

/// This shows something where the test is run with an environment, as the gate does and `rt try` doesn't.
#[test]
fn the_entries_of_the_process(rt: HostRuntime) -> Result<(), Fail> {
    let alloc = rt.alloc();
    let list: Vec<(String, String)> = env::vars(&rt)?.collect(alloc)?;
    let wanted = pairs(alloc, &Environment::from_pairs(alloc, list)?)?;
    let environment = Environment::from_process(&rt)?;
    sees_text(&rt, pairs(alloc, &environment)?, wanted.as_str());
    assert!(rt; !environment.loaded());
    Ok(())
}
