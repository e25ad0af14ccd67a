//! What calls answer and leave, in the words of docs/ROWS.md.

use dotenvy::{Environment, Result, Vars, vars};
use std::alloc::{AllocError, Allocator, Global};
use std::io;
use std::process::Abort;
use std::test::Fail;
use test_support::answers;
use test_support::system::PlayedSystem;

/// Sees that a text is the wanted one.
pub fn sees_text(rt: &impl Abort, got: String, wanted: &str) {
    assert_eq!(rt; got.as_str(), wanted);
}

/// All that a fault tells: its text as it is printed, its kind and its system code, and how it
/// was made.
pub fn told(
    alloc: Global,
    printed: &str,
    fault: io::Error,
) -> std::result::Result<String, AllocError> {
    let kind = fault.kind();
    let code = fault.raw_os_error();
    format!(in alloc; "{printed}, {kind:?}, {code:?}, {fault:?}")
}

/// The same of a fault that was played.
pub fn played(alloc: Global, fault: io::Error) -> std::result::Result<String, AllocError> {
    let printed = fault.to_string(alloc)?;
    told(alloc, printed.as_str(), fault)
}

/// The names and values, as `A=1; B=2`.
pub fn pairs<A: Allocator>(
    alloc: Global,
    environment: &Environment<A>,
) -> std::result::Result<String, AllocError> {
    answers::pairs(alloc, environment)?.join(alloc, "; ")
}

/// The names and values of a snapshot, as `A=1; B=2`.
pub fn pairs_of(alloc: Global, vars: Vars) -> std::result::Result<String, AllocError> {
    let mut pairs: Vec<String> = Vec::new(alloc);
    for (name, value) in vars {
        pairs.push(format!(in alloc; "{name}={value}")?)?;
    }
    pairs.join(alloc, "; ")
}

/// What `vars` gives where the system finds no file.
pub fn vars_without_files(rt: HostRuntime, environment: &mut Environment) -> Result<Vars> {
    vars(&PlayedSystem::without_files(rt), environment)
}

/// An environment of these names and values.
pub fn environment(
    alloc: Global,
    pairs: &[(&str, &str)],
) -> std::result::Result<Environment, Fail> {
    let mut list: Vec<(String, String)> = Vec::new(alloc);
    for (name, value) in pairs {
        list.push((
            String::from_str(alloc, name)?,
            String::from_str(alloc, value)?,
        ))?;
    }
    Ok(Environment::from_pairs(alloc, list)?)
}
