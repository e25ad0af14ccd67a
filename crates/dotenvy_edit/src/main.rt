//! Sets, prints, removes or renames one name of an environment file, and keeps every other byte.
#![tactic(auto)]

use dotenvy::Plain;
use dotenvy_edit_command::file::RealFile;
use dotenvy_edit_command::run::{Streams, run};
use dotenvy_program::program::run_program;
use std::io;
use std::process::ExitCode;

fn main(rt: HostRuntime) -> ExitCode {
    run_program(&rt, "dotenvy_edit: ", 2, |words| {
        let mut streams = Streams {
            reader: Plain::new(rt.reader()),
            writer: Plain::new(io::writer(&rt)),
            errors: Plain::new(rt.stderr()),
        };
        let mut file = RealFile::new(&rt);
        run(&mut file, rt.alloc(), rt.alloc(), words, &mut streams)
    })
}
