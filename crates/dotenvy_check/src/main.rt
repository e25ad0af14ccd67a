//! Reads environment files, and says on which lines something is wrong.
#![tactic(auto)]

use dotenvy::Plain;
use dotenvy_checker::run::run;
use dotenvy_program::program::run_program;
use std::io;
use std::process::ExitCode;

fn main(rt: HostRuntime) -> ExitCode {
    run_program(&rt, "dotenvy_check: ", 2, |words| {
        let mut reader = Plain::new(rt.reader());
        let mut writer = Plain::new(io::writer(&rt));
        run(&rt, rt.alloc(), words, &mut reader, &mut writer)
    })
}
