//! Reads the words of the command line.

ghost use Rattle.std.specs.Prelude.{◌≡◌, IfOk, map};
ghost use Rattle.clap.specs.Words.{found_of, rows_of};
ghost use Rattle.dotenvy_words.specs.Found.{texts};
ghost use Rattle.dotenvy_export_command.specs.Answers.{asked_by, AnswersWords, IsTargetFailure};
ghost use Rattle.dotenvy_export_command.specs.Files.{files_of, named_of};
ghost use Rattle.dotenvy_export_command.specs.Words.{asked_of, target_of};

use crate::command::Exporter;
use crate::failure::{Failure, Usage};
pub use crate::files::Named;
use crate::options;
use clap::ArgMatches;
use dotenvy::Dialect;
use dotenvy_exporter::target::Target;
use dotenvy_reports::one_line::one_line;
use dotenvy_words::found::{dialect, is_on};
use dotenvy_words::reading::{Reading, read};
use env_layers::Mode;
use std::alloc::{AllocError, Allocator, Global};

/// What the words of the command line ask for.
#[derive(Drop)]
pub enum Request<A: Allocator = Global> {
    /// To write what files declare.
    Export(Words<A>),
    /// To print how the program is called.
    Help,
    /// To print which version it is.
    Version,
}

/// What is written of which files.
#[derive(Drop)]
pub struct Words<A: Allocator = Global> {
    /// How it is written.
    pub how: How,
    /// Whether the names of the environment are left out.
    pub ignores_environment: bool,
    /// The files, in their order, each as often as it is named.
    pub files: Vec<Named<A>, A>,
}

/// How files are read, and how it is written what they declare.
#[derive(Clone, Copy)]
pub struct How {
    /// For whom it is written.
    pub target: Target,
    /// How to read the files.
    pub dialect: Dialect,
    /// What a file does with a name that has a value.
    pub mode: Mode,
    /// Whether names that the target keeps for itself are left out.
    pub skips_reserved: bool,
}

/// Reads the words after the program's name.
///
/// The error is `Usage` for words that are refused, or `Memory`.
///
/// A file comes after those optional ones whose place among the words is before its own. No clause says that these
/// places are those of the files, as `clap` has none on them.
///
/// ```
/// // of the words `sh --next a.env b.env`: the files a.env and b.env, in the second dialect, for a shell
/// let request = read_words(global, alloc, &words)?;
/// ```
pub fn read_words<A: Allocator + Clone>(
    global: Global,
    alloc: A,
    words: &[String<A>],
) -> Result<Request<A>, Failure<A>>
    ensures { AnswersWords (texts words.now) result }
{
    match read::<Exporter, A>(global, alloc.clone()?, words)? {
        Reading::Found(found) => match options::target(&found) {
            Some(target) => Ok(Request::Export(asked(alloc, &found, target)?)),
            None => Err(no_target(alloc, &found)?),
        },
        Reading::Help => Ok(Request::Help),
        Reading::Version => Ok(Request::Version),
        Reading::Mistake(kind, word) => Err(Failure::Usage(Usage::Word(kind, word))),
    }
}

// What was found of the words asks for this.
fn asked<A: Allocator + Clone>(
    alloc: A,
    found: &ArgMatches<'_>,
    target: Target,
) -> Result<Words<A>, AllocError>
    requires { target_of (rows_of (found_of found.now)) ≡ Some target }
    ensures asked { IfOk result (λ words. asked_by words ≡ asked_of (rows_of (found_of found.now))) }
    ensures files { IfOk result (λ words. map named_of words.files.items ≡ files_of (found_of found.now)) }
{
    Ok(Words {
        how: How {
            target,
            dialect: dialect(found),
            mode: options::mode(found),
            skips_reserved: is_on(found, "skip-reserved"),
        },
        ignores_environment: is_on(found, "ignore-environment"),
        files: options::files(alloc, found)?,
    })
}

// Why what was found names no target.
fn no_target<A: Allocator>(alloc: A, found: &ArgMatches<'_>) -> Result<Failure<A>, AllocError>
    requires { target_of (rows_of (found_of found.now)) ≡ None }
    ensures { IfOk result (λ failure. IsTargetFailure (rows_of (found_of found.now)) failure) }
{
    match found.get_str("target") {
        Some(name) => Ok(Failure::Usage(Usage::Target(one_line(alloc, name)?))),
        None => Ok(Failure::Usage(Usage::NoTarget)),
    }
}
