//! Faults that end a search for a file.

use crate::shown::{played, sees_text};
use dotenvy::Error;
use dotenvy::search::{Look, find};
use std::alloc::Global;
use std::io;
use std::io::ErrorKind;
use std::path::Path;
use std::test::Fail;
use test_support::looks::PlayedLooks;

/// What a search answers whose first look fails so.
fn answered(alloc: Global, fault: io::Error) -> Result<io::Error, Fail> {
    let mut looks = PlayedLooks::new(alloc, vec![in alloc; Look::Fault(fault)]?);
    let answer = find(
        alloc,
        Path::new("/a"),
        Path::new(".env"),
        &mut |path| { looks.look(path) },
    );
    match answer {
        Err(Error::Io(answered)) => Ok(answered),
        _ => Err(Fail::from("another answer")),
    }
}

#[test]
fn a_fault_is_answered_as_it_came(rt: HostRuntime) -> Result<(), Fail> {
    let alloc = rt.alloc();
    for fault in [
        io::Error::new(ErrorKind::PermissionDenied, "the door is locked"),
        io::Error::from_raw_os_error(5),
        io::Error::from_raw_os_error(40),
    ] {
        let wanted = played(alloc, fault)?;
        let answered = answered(alloc, fault)?;
        sees_text(&rt, played(alloc, answered)?, wanted.as_str());
    }
    Ok(())
}
