//! An example: prints each fault of the files that it is given as `FILE:LINE: text`, and ends with 1 if there is one.
#![tactic(auto)]

use dotenvy::{Environment, Result, from_path_iter};
use std::env;
use std::path::Path;
use std::process::ExitCode;

/// Prints the faults of a file, and returns whether there was one. A fault on no line, such as one of the disk, has
/// line 0.
fn print_faults(rt: HostRuntime, path: &str, settings: &Environment) -> Result<bool> {
    let mut file = from_path_iter(&rt, Path::new(path))?;
    file.drop_mark()?;
    let mut has_faults = false;
    for (line, item) in file.numbered_items(settings) {
        if let Err(error) = item {
            has_faults = true;
            println!(rt; "{path}:{line}: {error}")?;
        }
    }
    Ok(has_faults)
}

/// Prints the faults of each file that the words name, and of those that can't be opened why not.
fn print_all(rt: HostRuntime) -> Result<bool> {
    let settings = Environment::from_process(&rt)?;
    let mut has_faults = false;
    for path in env::args(&rt)?.skip(1) {
        match print_faults(rt, &path, &settings) {
            Ok(found) => has_faults |= found,
            Err(error) => {
                has_faults = true;
                println!(rt; "{path}: {error}")?;
            }
        }
    }
    Ok(has_faults)
}

fn main(rt: HostRuntime) -> ExitCode {
    match print_all(rt) {
        Ok(false) => ExitCode::SUCCESS,
        Ok(true) => ExitCode::FAILURE,
        Err(error) => {
            let _ = eprintln!(rt; "error: {error}");
            ExitCode::FAILURE
        }
    }
}
