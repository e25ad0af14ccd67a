//! Processes whose ends are played, and commands as texts.

use crate::system_fault::SystemFault;
use std::alloc::{AllocError, Allocator, Global};
use std::io;
use std::os::unix::process::ExitStatusExt;
use std::process::{
    Child, ChildStderr, ChildStdin, ChildStdout, Command, ExitStatus, OpenProcess, SystemProcess,
};

/// What becomes of a command.
#[derive(Clone, Copy, Drop)]
pub enum Start {
    /// The system runs it.
    Runs,
    /// It ends with this status, in the form of C's `waitpid`.
    Ends(i32),
    /// It is not started, by this fault.
    Fails(SystemFault),
    /// It is started, and its end not seen, by this fault.
    IsLost(SystemFault),
}

/// A process, and what a wait for its end answers.
#[derive(Drop)]
pub struct PlayedProcess {
    end: Result<ExitStatus, SystemFault>,
}

impl PlayedProcess {
    /// Ends with this status, in the form of C's `waitpid`.
    pub fn with(status: i32) -> PlayedProcess {
        PlayedProcess {
            end: Ok(ExitStatus::from_raw(status)),
        }
    }

    /// Its end is not seen, by this fault.
    pub fn lost(fault: SystemFault) -> PlayedProcess {
        PlayedProcess { end: Err(fault) }
    }

    /// As the child, which ends first.
    pub fn ended(mut child: Child<SystemProcess>) -> PlayedProcess {
        PlayedProcess {
            end: child.wait().map_err(|error| SystemFault::of(&error)),
        }
    }
}

impl OpenProcess for PlayedProcess {
    type Stdin = ChildStdin;

    type Stdout = ChildStdout;

    type Stderr = ChildStderr;

    fn id(&self) -> u32 {
        0
    }

    fn wait(&mut self) -> io::Result<ExitStatus> {
        self.end.map_err(SystemFault::error)
    }
}

/// The command and the variables that it is given, as `[sh][-c][exit] A=[1] P=[0]`. Behind the words stands `alone` if
/// it inherits no variables, and `in` and the directory if it is started in another one.
pub fn described<B: Allocator>(alloc: Global, command: &Command<B>) -> Result<String, AllocError> {
    let mut text = format!(in alloc; "[{}]", command.get_program())?;
    for word in command.get_args() {
        write!(text, "[{word}]")?;
    }
    if command.get_env_clear() {
        write!(text, " alone")?;
    }
    if let Some(directory) = command.get_current_dir() {
        write!(text, " in {}", directory.as_str())?;
    }
    write_variables(&mut text, command)?;
    Ok(text)
}

fn write_variables<B: Allocator>(
    text: &mut String,
    command: &Command<B>,
) -> Result<(), AllocError> {
    for (name, value) in command.get_envs() {
        match value {
            Some(value) => write!(text, " {name}=[{value}]")?,
            None => write!(text, " no {name}")?,
        }
    }
    Ok(())
}
