//! A system that tells what it loads and how each command ends, and the program over it.

ghost use Rattle.std.specs.FinMap as fin;
ghost use Rattle.std.specs.Prelude.{◌≡◌, Some};
ghost use Rattle.dotenvy_command.specs.Answers.{texts};
ghost use Rattle.dotenvy_command.specs.Words.{CommandLine as Line, AsksCommand};
ghost use Rattle.test_witnesses.specs.Scripts.{EndsByScript, IsChosen, RunsByScript};

use dotenvy::{Dialect, Environment, Result, Sink, Source};
use dotenvy_command::failure::Failure;
use dotenvy_command::loaded::Loader;
use dotenvy_command::prepared::{Prepared, Starter};
use dotenvy_command::run::run;
use std::alloc::{Alloc, Allocator, Global};
use std::io;
use std::process::ExitStatus;

/// A system that loads these names, whatever the files are. A command that is given the name with the value ends with
/// one status, and each other command with another.
#[derive(Drop)]
pub struct Script<'a> {
    pub alloc: Global,
    pub loaded: &'a Environment,
    pub name: &'a str,
    pub value: &'a str,
    pub given: ExitStatus,
    pub other: ExitStatus,
}

impl<'a> Alloc for Script<'a> {
    type A = Global;

    fn alloc(&self) -> Global {
        self.alloc
    }
}

impl<'a> Loader<Global> for Script<'a> {
    ghost loads = { λ s files dialect names. names ≡ s.loaded.now.names };

    fn load(&self, _files: &[String], _dialect: Dialect) -> Result<Environment> {
        self.loaded.try_clone()
    }
}

impl<'a> Starter for Script<'a> {
    ghost ends = { λ s made result.
        EndsByScript s.name.now s.value.now s.given s.other made result };

    fn start<A: Allocator + Clone>(&self, prepared: Prepared<'_, A>) -> io::Result<ExitStatus> {
        Ok(self.end_with(prepared.environment()))
    }
}

impl<'a> Script<'a> {
    // The end of a command that is given these names.
    fn end_with<A: Allocator>(&self, env: &Environment<A>) -> ExitStatus
        ensures { IsChosen (fin.get env.now.names self.now.name.now ≡ Some self.now.value.now)
            self.now.given self.now.other (λ exit. result ≡ exit) }
    {
        match env.get(self.name) {
            Some(value) if value == self.value => self.given,
            _ => self.other,
        }
    }
}

/// Runs the program over this system. Its status is that of a command with the names that were loaded.
pub fn run_script<S: Source, W: Sink>(
    script: &Script<'_>,
    words: &[String],
    reader: &mut S,
    writer: &mut W,
) -> std::result::Result<u8, Failure>
    ensures { (line : Line) → AsksCommand (texts words.now) line →
        RunsByScript script.now.loaded.now.names script.now.name.now script.now.value.now
        script.now.given script.now.other result }
{
    run(script, words, reader, writer)
}
