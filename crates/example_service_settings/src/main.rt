//! An example: a service that takes HOST and PORT from `.env`, and says in which line a fault is.
#![tactic(auto)]

use dotenvy::{Dialect, Environment, Result, open_filename};
use std::path::Path;
use std::process::ExitCode;

/// The environment of the process, with what `.env` adds. A fault is printed with its file and line.
fn settings(rt: HostRuntime) -> Result<Environment> {
    let mut settings = Environment::from_process(&rt)?;
    let (path, mut file) = open_filename(&rt, Path::new(".env"), Dialect::V15)?;
    if let Err(error) = file.load_rest(&mut settings) {
        eprintln!(rt; "{}:{}: {error}", path.display(), file.first_line())?;
        return Err(error);
    }
    Ok(settings)
}

fn main(rt: HostRuntime) -> ExitCode {
    let Ok(settings) = settings(rt) else {
        return ExitCode::FAILURE;
    };
    match (settings.get("HOST"), settings.get("PORT")) {
        (Some(host), Some(port)) => {
            let _ = println!(rt; "serving on {host}:{port}");
            ExitCode::SUCCESS
        }
        _ => {
            let _ = eprintln!(rt; "HOST and PORT have to be set");
            ExitCode::FAILURE
        }
    }
}
