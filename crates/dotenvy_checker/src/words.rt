//! Reads the words of the command line.

ghost use Rattle.std.specs.Prelude.{◌≡◌, IfOk};
ghost use Rattle.clap.specs.Words.{found_of, rows_of};
ghost use Rattle.dotenvy_words.specs.Found.{texts};
ghost use Rattle.dotenvy_checker.specs.Answers.{asked_by, AnswersWords};
ghost use Rattle.dotenvy_checker.specs.Words.{asked_of};

use crate::command::Checker;
use crate::failure::Failure;
use crate::mistake::mistake_of;
use crate::options;
use clap::ArgMatches;
use dotenvy::Dialect;
use dotenvy_findings::kind::Kind;
use dotenvy_reports::format::Format;
use dotenvy_reports::one_line::one_line;
use dotenvy_words::found::{dialect, is_on};
use dotenvy_words::reading::{Reading, read};
use std::alloc::{AllocError, Allocator, Global};

/// What the words of the command line ask for.
#[derive(Drop)]
pub enum Request<A: Allocator = Global> {
    /// To check files.
    Check(Words<A>),
    /// To print how the program is called.
    Help,
    /// To print which version it is.
    Version,
}

/// How to check which files.
#[derive(Drop)]
pub struct Words<A: Allocator = Global> {
    /// How to read the files.
    pub dialect: Dialect,
    /// Whether a warning counts as a fault.
    pub strict: bool,
    /// Whether nothing is printed of the files.
    pub quiet: bool,
    /// Whether what a load says of a line with a fault is printed, too.
    pub text: bool,
    /// Whether a file may use the names of the files before it.
    pub together: bool,
    /// Whether the names of the environment are left out.
    pub ignores_environment: bool,
    /// The kinds of warnings that are not reported.
    pub allowed: Vec<Kind, A>,
    /// The kinds that count as faults.
    pub denied: Vec<Kind, A>,
    /// The names that are taken to have a value.
    pub known: Vec<String<A>, A>,
    /// The names of files that are left out of a folder.
    pub excluded: Vec<String<A>, A>,
    /// The file with the names that there should be.
    pub schema: Option<String<A>>,
    /// How the report is written.
    pub format: Format,
    /// The files, in their order, each as often as it is named.
    pub files: Vec<String<A>, A>,
}

/// Reads the words after the program's name.
///
/// The error is `Usage` for words that are refused, `Value` for a value that is, or `Memory`.
///
/// Words ask for help if `clap` takes those before the first `-h` or `--help`, and for the version likewise: a word
/// with more letters, such as `-qh`, asks for neither. The word of `Usage` is the first that is refused: the words
/// before it are not refused, and with it they are. The kind is a mistake that `clap` finds in the words up to it, or
/// an unknown option, if it finds help or the version there. `Value` has the first value that names no kind or format,
/// or that would allow an error; of several options the one of `--allow`, or else of `--deny`, or else of `--format`.
///
/// ```
/// // of the words `--next a.env b.env`: the files a.env and b.env, in the second dialect
/// let request = read_words(global, alloc, &words)?;
/// ```
pub fn read_words<A: Allocator + Clone>(
    global: Global,
    alloc: A,
    words: &[String<A>],
) -> Result<Request<A>, Failure<A>>
    ensures { AnswersWords (texts words.now) result }
{
    match read::<Checker, A>(global, alloc.clone()?, words)? {
        Reading::Found(found) => match mistake_of(&found) {
            Some((wrong, value)) => Err(Failure::Value(wrong, one_line(alloc, value)?)),
            None => Ok(Request::Check(asked(alloc, &found)?)),
        },
        Reading::Help => Ok(Request::Help),
        Reading::Version => Ok(Request::Version),
        Reading::Mistake(kind, word) => Err(Failure::Usage(kind, word)),
    }
}

// What was found of the words asks for this.
fn asked<A: Allocator + Clone>(alloc: A, found: &ArgMatches<'_>) -> Result<Words<A>, AllocError>
    ensures { IfOk result (λ words. asked_by words ≡ asked_of (rows_of (found_of found.now))) }
{
    Ok(Words {
        dialect: dialect(found),
        strict: is_on(found, "strict"),
        quiet: is_on(found, "quiet"),
        text: is_on(found, "text"),
        together: is_on(found, "together"),
        ignores_environment: is_on(found, "ignore-environment"),
        allowed: options::kinds(alloc.clone()?, found, "allow")?,
        denied: options::kinds(alloc.clone()?, found, "deny")?,
        known: options::texts(alloc.clone()?, found, "known")?,
        excluded: options::texts(alloc.clone()?, found, "exclude")?,
        schema: options::text(alloc.clone()?, found, "schema")?,
        format: options::format_of(found),
        files: options::texts(alloc, found, "file")?,
    })
}
