//! The pairs that `vars` gives.

use crate::shown::{environment, pairs, pairs_of, sees_text, vars_without_files};
use dotenvy::{Environment, Result};
use std::alloc::Global;
use std::test::Fail;

// Sets `A` to `new`.
fn renew(alloc: Global, environment: &mut Environment) -> Result<()> {
    let key = String::from_str(alloc, "A")?;
    environment.set(key, String::from_str(alloc, "new")?)
}

#[test]
fn vars_are_a_snapshot(rt: HostRuntime) -> std::result::Result<(), Fail> {
    let alloc = rt.alloc();
    let mut environment = environment(alloc, &[("B", "2"), ("A", "1")])?;
    let snapshot = vars_without_files(rt, &mut environment)?;
    renew(alloc, &mut environment)?;
    sees_text(&rt, pairs_of(alloc, snapshot)?, "A=1; B=2");
    sees_text(&rt, pairs(alloc, &environment)?, "A=new; B=2");
    Ok(())
}
