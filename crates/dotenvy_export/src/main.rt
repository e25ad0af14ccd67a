//! Writes what environment files declare, so that other programs read exactly these pairs.
#![tactic(auto)]

use dotenvy::Plain;
use dotenvy_export_command::run::{Streams, run};
use dotenvy_program::program::run_program;
use std::io;
use std::process::ExitCode;

fn main(rt: HostRuntime) -> ExitCode {
    run_program(&rt, "dotenvy_export: ", 2, |words| {
        let mut streams = Streams {
            reader: Plain::new(rt.reader()),
            writer: Plain::new(io::writer(&rt)),
            errors: Plain::new(rt.stderr()),
        };
        run(&rt, rt.alloc(), words, &mut streams)
    })
}
