//! A program, from the words of the process to the status that it ends with.

ghost use Rattle.std.specs.Prelude.{Result};
ghost use Rattle.std.specs.Process.{exit_status};
ghost use Rattle.dotenvy_program.specs.Status.{EndsAs};

use crate::process_words::process_words;
use std::alloc::{Alloc, Global};
use std::env::Env;
use std::fmt::Display;
use std::io::ErrorKind;
use std::process::ExitCode;

/// Runs a program on the words of the command line, without the program's name, and returns the status to end with:
/// what the program returns, or the `failed` status after an error, which is printed to standard error, after `prefix`.
///
/// If a word is not UTF-8, or memory for the words is refused, that is printed instead, and the status is `failed`.
///
/// ```
/// fn main(rt: HostRuntime) -> ExitCode {
///     run_program(&rt, "name: ", 2, |words| run(&rt, words))
/// }
/// ```
pub fn run_program<R, P, E>(rt: &R, prefix: &str, failed: u8, program: P) -> ExitCode
where
    R: Alloc<A = Global> + Env + Eprint,
    P: FnOnce(&[String]) -> Result<u8, E>,
    E: Display + Drop,
    requires { P.IsAlwaysCallable program }
    ensures { EndsAs failed (P.post program) (exit_status result) }
{
    let words = match process_words(rt) {
        Ok(words) => words,
        Err(fault) => {
            let text = match fault.kind() {
                ErrorKind::InvalidData => "a word of the command line is not UTF-8",
                _ => "out of memory",
            };
            let _ = eprintln!(rt; "{prefix}error: {text}");
            return ExitCode::from(failed);
        }
    };
    match program(words.as_slice()) {
        Ok(status) => ExitCode::from(status),
        Err(failure) => {
            let _ = eprintln!(rt; "{prefix}{failure}");
            ExitCode::from(failed)
        }
    }
}
