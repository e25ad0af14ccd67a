//! The environment in which a command is started.

ghost use Rattle.std.specs.Prelude.{IfOk, ℕ, List};
ghost use Rattle.dotenvy.specs.Dialect.{Dialect as Rules};
ghost use Rattle.dotenvy.specs.Environment.{Texts};
ghost use Rattle.dotenvy_command.specs.Answers.{texts};

use dotenvy::{Dialect, Environment, Result, from_filename_with};
use std::alloc::{Alloc, Allocator};
use std::env::Env;
use std::fs::Files;
use std::path::Path;

/// What gives a command its environment. Every runtime that has files and an environment does.
///
/// An implementation may specify, for contracts alone, which names it loads from which files (`loads`). Then contracts
/// say with which names a command is started.
pub trait Loader<A: Allocator> {
    ghost loads: { Self → List (List ℕ) → Rules → Texts → Type 0 } = { λ _ _ _ _. Unit {0} };

    /// The environment of the process, plus the names of each file, or of `.env`. A name that has a value keeps it.
    fn load(&self, files: &[String<A>], dialect: Dialect) -> Result<Environment<A>, A>
        ensures { IfOk result (λ env. loads self.now (texts files.now) dialect env.names) };
}

impl<A: Allocator + Clone, R: Files + Env + Alloc<A = A>> Loader<A> for R {
    fn load(&self, files: &[String<A>], dialect: Dialect) -> Result<Environment<A>, A> {
        let mut env = Environment::from_process(self)?;
        if files.is_empty() {
            from_filename_with(self, Path::new(".env"), dialect, &mut env)?;
        }
        'files: for file in files {
            from_filename_with(self, Path::new(file.as_str()), dialect, &mut env)?;
        }
        Ok(env)
    }
}
