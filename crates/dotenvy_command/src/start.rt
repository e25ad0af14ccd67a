//! Starts a command in an environment, and waits for its end.

ghost use Rattle.std.specs.Prelude.{◌∷◌};
ghost use Rattle.dotenvy_command.specs.Answers.{texts};
ghost use Rattle.dotenvy_command.specs.Started.{IsOfStart};

use crate::prepared::{Prepared, Starter};
use dotenvy::Environment;
use std::alloc::{Alloc, Allocator};
use std::io;

/// Starts the command and waits for its end. Returns its status, or 1 if a signal ended it.
///
/// The command inherits the environment of the process, with each name of this environment set. The error says that it
/// could not be started, or that waiting failed.
///
/// It may also be of kind `OutOfMemory`.
pub fn start<A: Allocator + Clone, R: Starter + Alloc<A = A>>(
    rt: &R,
    program: &str,
    arguments: &[String<A>],
    env: &Environment<A>,
) -> io::Result<u8>
    ensures { IsOfStart (R.ends rt.now) (program.now ∷ texts arguments.now) env.now.names result }
{
    let prepared = Prepared::new(rt.alloc(), program, arguments, env)?;
    let status = rt.start(prepared)?;
    Ok(match status.code() {
        Some(code) => u8::try_from(code).unwrap_or(1),
        None => 1,
    })
}
