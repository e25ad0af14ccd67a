//! What errors print, and which of them say that nothing was found.

use crate::shown::sees_text;
use dotenvy::{Bytes, Environment, Error, Iter, VarError};
use std::alloc::{AllocError, Global};
use std::io;
use std::io::ErrorKind;
use std::test::Fail;

#[test]
fn nothing_was_found(rt: HostRuntime) -> Result<(), Fail> {
    let alloc = rt.alloc();
    let rows: [(Error, bool); 6] = [
        (Error::Io(io::Error::from(ErrorKind::NotFound)), true),
        (
            Error::Io(io::Error::from(ErrorKind::PermissionDenied)),
            false,
        ),
        (Error::LineParse(String::new(alloc), 0), false),
        (Error::EnvVar(VarError::NotPresent), false),
        (Error::Nul(String::new(alloc)), false),
        (Error::Memory(AllocError), false),
    ];
    for (error, want) in &rows {
        assert_eq!(rt; error.not_found(), *want, "{error}");
    }
    Ok(())
}

#[test]
fn texts(rt: HostRuntime) -> Result<(), Fail> {
    let alloc = rt.alloc();
    let line = String::from_str(alloc, "test line")?;
    let key = String::from_str(alloc, "K")?;
    let rows: [(Error, &str); 4] = [
        (
            Error::LineParse(line, 2),
            "Error parsing line: 'test line', error at line index: 2",
        ),
        (
            Error::EnvVar(VarError::NotPresent),
            "environment variable not found",
        ),
        (Error::Nul(key), "value of 'K' contains a NUL"),
        (Error::Memory(AllocError), "out of memory"),
    ];
    for (error, want) in rows {
        sees_text(&rt, error.to_string(alloc)?, want);
    }
    Ok(())
}

// What a fault at this place prints.
fn printed_at(alloc: Global, index: usize) -> Result<String, AllocError> {
    let error: Error = Error::LineParse(String::from_str(alloc, "a b")?, index);
    error.to_string(alloc)
}

#[test]
fn places_of_each_number_of_digits(rt: HostRuntime) -> Result<(), Fail> {
    let alloc = rt.alloc();
    for (index, digits) in [
        (0, "0"),
        (1, "1"),
        (9, "9"),
        (10, "10"),
        (99, "99"),
        (100, "100"),
        (109, "109"),
        (1_000, "1000"),
        (12_345, "12345"),
        (65_535, "65535"),
        (65_536, "65536"),
        (4_294_967_295, "4294967295"),
        (4_294_967_296, "4294967296"),
        (10_000_000_000_000_000_000, "10000000000000000000"),
        (usize::MAX, "18446744073709551615"),
    ] {
        let want = format!(in alloc; "Error parsing line: 'a b', error at line index: {digits}")?;
        sees_text(&rt, printed_at(alloc, index)?, want.as_str());
    }
    Ok(())
}

#[test]
fn a_fault_inside_prints_as_itself(rt: HostRuntime) -> Result<(), Fail> {
    let alloc = rt.alloc();
    let want = io::Error::from(ErrorKind::PermissionDenied).to_string(alloc)?;
    let error: Error = Error::Io(io::Error::from(ErrorKind::PermissionDenied));
    sees_text(&rt, error.to_string(alloc)?, want.as_str());
    sees_text(
        &rt,
        VarError::NotPresent.to_string(alloc)?,
        "environment variable not found",
    );
    Ok(())
}

#[test]
fn a_line_that_is_no_text_says_so(rt: HostRuntime) -> Result<(), Fail> {
    let alloc = rt.alloc();
    let environment = Environment::new(alloc);
    let mut entries = Iter::new(alloc, Bytes::new(b"K=\xf0\x9f\x98"))?;
    match entries.next_item(&environment) {
        Some(Err(error)) => sees_text(&rt, error.to_string(alloc)?, "the line is not UTF-8"),
        _ => panic!(rt; "no fault"),
    }
    Ok(())
}
