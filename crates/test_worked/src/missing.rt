//! What is printed of names that are required and are not there.

use crate::shown::{environment, sees_text};
use env_layers::{Layers, Missing};
use std::alloc::{AllocError, Global};
use std::test::Fail;

// What is printed where these names are required of A, B and E.
fn printed(alloc: Global, names: &[&str]) -> Result<String, Fail> {
    let layers = Layers::new(environment(alloc, &[("A", "0"), ("B", "0"), ("E", "")])?);
    match layers.require(alloc, names) {
        Ok(()) => Err(Fail::from("all are there")),
        Err(missing) => Ok(missing.to_string(alloc)?),
    }
}

#[test]
fn absent_names_stand_in_a_row(rt: HostRuntime) -> Result<(), Fail> {
    let rows: [(&[&str], &str); 5] = [
        (&["A", "C", "C"], "environment variables not found: C, C"),
        (&["Z", "A", "Y"], "environment variables not found: Z, Y"),
        (
            &["Y", "E", "Z", "Y"],
            "environment variables not found: Y, Z, Y",
        ),
        (&["a", "F"], "environment variables not found: a, F"),
        (&["", "A=0", "B"], "environment variables not found: , A=0"),
    ];
    for (names, want) in rows {
        sees_text(&rt, printed(rt.alloc(), names)?, want);
    }
    Ok(())
}

#[test]
fn refused_memory_is_no_absent_name(rt: HostRuntime) -> Result<(), Fail> {
    let refused: Missing = Missing::from(AllocError);
    sees_text(&rt, refused.to_string(rt.alloc())?, "out of memory");
    Ok(())
}
