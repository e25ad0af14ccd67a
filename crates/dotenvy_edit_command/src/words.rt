//! Reads the words of the command line.

ghost use Rattle.std.specs.Prelude.{◌≡◌, IfOk, IsErrAnd, codes, map};
ghost use Rattle.clap.specs.Words.{found_of, rows_of};
ghost use Rattle.dotenvy_words.specs.Found.{texts};
ghost use Rattle.dotenvy_edit_command.specs.Words.{options_of};
ghost use Rattle.dotenvy_edit_command.specs.Answers.{options_by, AnswersCommand, AnswersFound, AnswersWords, IsGiven, IsLackOf, IsUnexpected, IsUsageEnd};

use crate::command::Editor;
use crate::failure::{Failure, Lacked, Usage};
use clap::ArgMatches;
use dotenvy::Dialect;
use dotenvy_reports::one_line::one_line;
use dotenvy_words::found::{dialect, is_on};
use dotenvy_words::reading::{Reading, read};
use std::alloc::{AllocError, Allocator, Global};

/// What the words of the command line ask for.
#[derive(Drop)]
pub enum Request<A: Allocator = Global> {
    /// To do something with a file.
    Act(Words<A>),
    /// To print how the program is called.
    Help,
    /// To print which version it is.
    Version,
}

/// What is done with which file.
#[derive(Drop)]
pub struct Words<A: Allocator = Global> {
    /// The file.
    pub file: String<A>,
    /// What is done with it.
    pub task: Task<A>,
    /// How it is done.
    pub how: How,
}

/// What is done with a file.
#[derive(Drop)]
pub enum Task<A: Allocator = Global> {
    /// To set the name to the value, or to what standard input has.
    Set(String<A>, Option<String<A>>),
    /// To print the value of the name.
    Get(String<A>),
    /// To remove the names.
    Unset(Vec<String<A>, A>),
    /// To rename the first name to the second one.
    Rename(String<A>, String<A>),
}

/// How it is done.
#[derive(Clone, Copy)]
pub struct How {
    /// The dialect of the file.
    pub dialect: Dialect,
    /// Whether other libraries have to read the value, too.
    pub is_portable: bool,
    /// Whether a file that is absent is made.
    pub creates: bool,
    /// Whether the change is printed, and no file written.
    pub is_dry: bool,
    /// Whether the last line feed of standard input is a part of the value.
    pub is_exact: bool,
    /// Whether no warnings are said.
    pub is_quiet: bool,
}

/// Reads the words after the program's name.
///
/// The error is `Usage` for words that are refused, or `Memory`.
///
/// ```
/// // of the words `set --next a.env A 1`: to set A to 1 in the file a.env, in the second dialect
/// let request = read_words(global, alloc, &words)?;
/// ```
pub fn read_words<A: Allocator + Clone>(
    global: Global,
    alloc: A,
    words: &[String<A>],
) -> Result<Request<A>, Failure<A>>
    ensures { AnswersWords (texts words.now) result }
{
    match read::<Editor, A>(global, alloc.clone()?, words)? {
        Reading::Found(found) => Ok(Request::Act(asked(alloc, &found)?)),
        Reading::Help => Ok(Request::Help),
        Reading::Version => Ok(Request::Version),
        Reading::Mistake(kind, word) => Err(Failure::Usage(Usage::Word(kind, word))),
    }
}

// What was found of the words asks for this.
fn asked<A: Allocator + Clone>(alloc: A, found: &ArgMatches<'_>) -> Result<Words<A>, Failure<A>>
    ensures { AnswersFound (rows_of (found_of found.now)) result }
{
    let Some(command) = found.get_str("command") else {
        return Err(Failure::Usage(Usage::NoCommand));
    };
    let (file, task) = match found.get_strs("file") {
        Some(words) => task_of(alloc, command, words)?,
        None => task_of(alloc, command, &[])?,
    };
    Ok(Words {
        file,
        task,
        how: how_of(found),
    })
}

// How it is done, as the options say.
fn how_of(found: &ArgMatches<'_>) -> How
    ensures { options_by result ≡ options_of (rows_of (found_of found.now)) }
{
    How {
        dialect: dialect(found),
        is_portable: is_on(found, "portable"),
        creates: is_on(found, "create"),
        is_dry: is_on(found, "dry-run"),
        is_exact: is_on(found, "exact"),
        is_quiet: is_on(found, "quiet"),
    }
}

// The file and the task that a command names with these words after it.
fn task_of<A: Allocator + Clone>(
    alloc: A,
    command: &str,
    words: &[&str],
) -> Result<(String<A>, Task<A>), Failure<A>>
    ensures { AnswersCommand command.now (map (λ word. word.now) words.now) result }
{
    match command {
        "set" => set_of(alloc, words),
        "get" => get_of(alloc, words),
        "unset" => unset_of(alloc, words),
        "rename" => rename_of(alloc, words),
        _ => Err(Failure::Usage(Usage::Command(one_line(alloc, command)?))),
    }
}

// A word that is lacked.
fn lacks<T, A: Allocator>(lacked: Lacked) -> Result<T, Failure<A>>
    ensures { IsErrAnd result (IsUsageEnd (λ usage. IsLackOf lacked usage)) }
{
    Err(Failure::Usage(Usage::Lacks(lacked)))
}

// A word too many.
fn unexpected<T, A: Allocator>(alloc: A, word: &str) -> Result<T, Failure<A>>
    ensures { IsErrAnd result (IsUsageEnd (λ usage. IsUnexpected word.now usage)) }
{
    Err(Failure::Usage(Usage::Unexpected(one_line(alloc, word)?)))
}

// What `set` asks for.
fn set_of<A: Allocator + Clone>(
    alloc: A,
    words: &[&str],
) -> Result<(String<A>, Task<A>), Failure<A>>
    ensures { AnswersCommand (codes "set") (map (λ word. word.now) words.now) result }
{
    match words {
        [] => lacks(Lacked::File),
        [_] => lacks(Lacked::Name),
        [file, name] => {
            let file = String::from_str(alloc.clone()?, file)?;
            let name = String::from_str(alloc, name)?;
            Ok((file, Task::Set(name, None)))
        }
        [file, name, value] => {
            let file = String::from_str(alloc.clone()?, file)?;
            let name = String::from_str(alloc.clone()?, name)?;
            Ok((file, Task::Set(name, given(alloc, value)?)))
        }
        [_, _, _, word, ..] => unexpected(alloc, word),
    }
}

// The value that is given by this word; `None` if it is that of standard input.
fn given<A: Allocator>(alloc: A, word: &str) -> Result<Option<String<A>>, AllocError>
    ensures { IfOk result (IsGiven word.now) }
{
    match word {
        "-" => Ok(None),
        value => Ok(Some(String::from_str(alloc, value)?)),
    }
}

// What `get` asks for.
fn get_of<A: Allocator + Clone>(
    alloc: A,
    words: &[&str],
) -> Result<(String<A>, Task<A>), Failure<A>>
    ensures { AnswersCommand (codes "get") (map (λ word. word.now) words.now) result }
{
    match words {
        [] => lacks(Lacked::File),
        [_] => lacks(Lacked::Name),
        [file, name] => {
            let file = String::from_str(alloc.clone()?, file)?;
            let name = String::from_str(alloc, name)?;
            Ok((file, Task::Get(name)))
        }
        [_, _, word, ..] => unexpected(alloc, word),
    }
}

// What `unset` asks for.
fn unset_of<A: Allocator + Clone>(
    alloc: A,
    words: &[&str],
) -> Result<(String<A>, Task<A>), Failure<A>>
    ensures { AnswersCommand (codes "unset") (map (λ word. word.now) words.now) result }
{
    match words {
        [] => lacks(Lacked::File),
        [_] => lacks(Lacked::Name),
        [file, names @ ..] => {
            let file = String::from_str(alloc.clone()?, file)?;
            Ok((file, Task::Unset(copies(alloc, names)?)))
        }
    }
}

// Copies of texts.
fn copies<A: Allocator + Clone>(alloc: A, names: &[&str]) -> Result<Vec<String<A>, A>, AllocError>
    ensures { IfOk result (λ all. texts all.items ≡ map (λ name. name.now) names.now) }
{
    let mut all = Vec::new(alloc.clone()?);
    'names: for name in names {
        let name = String::from_str(alloc.clone()?, name)?;
        all.push(name)?;
    }
    Ok(all)
}

// What `rename` asks for.
fn rename_of<A: Allocator + Clone>(
    alloc: A,
    words: &[&str],
) -> Result<(String<A>, Task<A>), Failure<A>>
    ensures { AnswersCommand (codes "rename") (map (λ word. word.now) words.now) result }
{
    match words {
        [] => lacks(Lacked::File),
        [_] => lacks(Lacked::Old),
        [_, _] => lacks(Lacked::New),
        [file, old, new] => {
            let file = String::from_str(alloc.clone()?, file)?;
            let old = String::from_str(alloc.clone()?, old)?;
            let new = String::from_str(alloc, new)?;
            Ok((file, Task::Rename(old, new)))
        }
        [_, _, _, word, ..] => unexpected(alloc, word),
    }
}
