//! What the program prints of each failure.

use crate::shown::sees_text;
use dotenvy::{Error, VarError};
use dotenvy_command::failure::{Failure, Usage};
use std::alloc::{AllocError, Global};
use std::io;
use std::io::ErrorKind;
use std::test::Fail;

// What a refusal prints by itself and as a failure, with a semicolon between.
fn printed(alloc: Global, usage: Usage) -> Result<String, AllocError> {
    let text = usage.to_string(alloc)?;
    format!(in alloc; "{text}; {}", Failure::Usage(usage))
}

#[test]
fn texts_of_refused_words(rt: HostRuntime) -> Result<(), Fail> {
    let alloc = rt.alloc();
    let word = String::from_str(alloc, "-é 'x'")?;
    for (usage, text) in [
        (Usage::MissingCommand, "missing required argument <COMMAND>"),
        (Usage::MissingFile, "missing value of <FILE>"),
        (Usage::UnknownOption(word), "unknown option '-é 'x''"),
        (Usage::Memory(AllocError), "out of memory"),
    ] {
        let wanted = format!(in alloc; "{text}; error: {text}")?;
        sees_text(&rt, printed(alloc, usage)?, wanted.as_str());
    }
    Ok(())
}

#[test]
fn texts_of_faults_of_a_load(rt: HostRuntime) -> Result<(), Fail> {
    let alloc = rt.alloc();
    let line = String::from_str(alloc, "\"$A\"")?;
    let key = String::from_str(alloc, "A")?;
    for (fault, text) in [
        (
            Error::LineParse(line, 3),
            "error: failed to load environment: Error parsing line: '\"$A\"', error at line index: 3",
        ),
        (
            Error::EnvVar(VarError::NotPresent),
            "error: failed to load environment: environment variable not found",
        ),
        (
            Error::Nul(key),
            "error: failed to load environment: value of 'A' contains a NUL",
        ),
        (
            Error::Memory(AllocError),
            "error: failed to load environment: out of memory",
        ),
    ] {
        sees_text(&rt, Failure::Load(fault).to_string(alloc)?, text);
    }
    Ok(())
}

#[test]
fn texts_of_faults_of_the_system(rt: HostRuntime) -> Result<(), Fail> {
    let alloc = rt.alloc();
    let fault = io::Error::from(ErrorKind::BrokenPipe);
    let wanted = format!(in alloc; "error: failed to load environment: {fault}; fatal: {fault}")?;
    let load: Failure = Failure::Load(Error::Io(fault));
    let start: Failure = Failure::Start(fault);
    sees_text(&rt, format!(in alloc; "{load}; {start}")?, wanted.as_str());
    Ok(())
}
