//! Commands that are ready to be started, and what starts them.

ghost use Rattle.std.specs.Prelude.{◌∷◌, IfOk, Result};
ghost use Rattle.std.specs.declared.io.Error.{Error};
ghost use Rattle.std.specs.declared.process.status.ExitStatus.{ExitStatus};
ghost use Rattle.dotenvy_command.specs.Answers.{texts};
ghost use Rattle.dotenvy_command.specs.Started.{IsMadeOf, Made, SetsNames, made_of};

use dotenvy::Environment;
use std::alloc::{AllocError, Allocator, Global};
use std::io;
use std::process::{Command, ExitStatus, Processes};

/// A command, ready to be started once, as it was made. It borrows the environment whose names it sets.
///
/// The name that the command is told is its own, which no contract says.
#[derive(Drop)]
pub struct Prepared<'a, A: Allocator = Global> {
    command: Command<A>,
    env: &'a Environment<A>,
    pub ghost sets: { SetsNames env.now.names (made_of command) },
}

impl<'a, A: Allocator + Clone> Prepared<'a, A> {
    /// The command of a program and its arguments. It inherits the environment and the directory of the process, with
    /// each name of this environment set.
    pub fn new(
        alloc: A,
        program: &str,
        arguments: &[String<A>],
        env: &'a Environment<A>,
    ) -> Result<Prepared<'a, A>, AllocError>
        ensures { IfOk result (λ prepared. IsMadeOf (program.now ∷ texts arguments.now)
            env.now.names (made_of prepared.command)) }
    {
        let mut command = Command::new(alloc, program)?;
        command.args(arguments)?;
        'names: for (name, value) in env.iter() {
            command.env(name, value)?;
        }
        Ok(Prepared { command, env })
    }

    /// The environment whose names the command sets.
    pub fn environment(&self) -> &'a Environment<A>
        ensures { SetsNames result.now.names (made_of self.now.command) }
    {
        self.env
    }
}

/// What starts commands. Every runtime that starts processes does.
///
/// An implementation may specify, for contracts alone, what comes of the start of a command (`ends`). Then contracts
/// say of which command a status is.
pub trait Starter {
    ghost ends: { Self → Made → Result ExitStatus Error → Type 0 } = { λ _ _ _. Unit {0} };

    /// Starts the command and waits for its end. The error says that it could not be started, or that waiting failed.
    fn start<A: Allocator + Clone>(&self, prepared: Prepared<'_, A>) -> io::Result<ExitStatus>
        ensures { ends self.now (made_of prepared.entry.command) result };
}

impl<R: Processes> Starter for R {
    fn start<A: Allocator + Clone>(&self, prepared: Prepared<'_, A>) -> io::Result<ExitStatus> {
        let Prepared {
            mut command,
            env: _,
        } = prepared;
        command.status(self)
    }
}
