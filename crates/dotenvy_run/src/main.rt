//! Runs a command in the environment that files give it, or lists that environment.
#![tactic(auto)]

use dotenvy::Plain;
use dotenvy_command::run::run;
use dotenvy_program::program::run_program;
use std::io;
use std::process::ExitCode;

fn main(rt: HostRuntime) -> ExitCode {
    run_program(&rt, "", 1, |words| {
        let mut reader = Plain::new(rt.reader());
        let mut writer = Plain::new(io::writer(&rt));
        run(&rt, words, &mut reader, &mut writer)
    })
}
