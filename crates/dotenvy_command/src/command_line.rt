//! Reads the words of the command line (docs/COMMAND.md, "Options and the command").

ghost use Rattle.std.specs.Prelude.{◌≡◌, OnOk};
ghost use Rattle.dotenvy_command.specs.Answers.{AnswersWords, line_of, texts};
ghost use Rattle.dotenvy_command.specs.inside.FirstGroup.{AttachesFile, GroupBeginsWith, IsGroupOf, IsWord};
ghost use Rattle.dotenvy_command.specs.Words.{Group as WordGroup, with_group};

use crate::failure::Usage;
use dotenvy::Dialect;
use std::alloc::{AllocError, Allocator, Global};

/// What the words of the command line ask for (docs/COMMAND.md).
#[derive(Drop)]
pub struct CommandLine<A: Allocator = Global> {
    /// Whether to list standard input. Then no command is started.
    pub list: bool,
    /// The files that the words name, in their order, each as often as it is named.
    pub files: Vec<String<A>, A>,
    /// How to read files and standard input.
    pub dialect: Dialect,
    /// The command and its arguments. This is empty only if `list` is set.
    pub command: Vec<String<A>, A>,
}

/// Reads the words after the program's name (docs/COMMAND.md, "Options and the command").
///
/// An error is one of the words, or `Memory`. `UnknownOption` has the first word that begins with `-` and is no option
/// of the program.
///
/// ```
/// // of the words `-fa --file=b sh -c -x`: the files a and b, and the command sh with -c and -x
/// let line = command_line(alloc, &words)?;
/// ```
pub fn command_line<A: Allocator + Clone>(
    alloc: A,
    words: &[String<A>],
) -> Result<CommandLine<A>, Usage<A>>
    ensures { AnswersWords (texts words.now) result }
{
    let mut line = CommandLine {
        list: false,
        files: Vec::new(alloc.clone()?),
        dialect: Dialect::V15,
        command: Vec::new(alloc.clone()?),
    };
    let mut rest = words;
    'groups: while let Some((group, after)) = first_group(&alloc, rest)? {
        line.add(group)?;
        rest = after;
    }
    if rest.is_empty() && !line.list {
        return Err(Usage::MissingCommand);
    }
    line.command = Vec::from_clones(alloc, rest)?;
    Ok(line)
}

/// A group of words before the command: an option, with its file if it has one.
#[derive(Clone, Copy, Drop)]
enum Group<'a> {
    File(&'a str),
    List,
    Next,
}

/// A word by itself, before the command.
#[derive(Clone, Copy, Drop)]
enum Word<'a> {
    /// The word after it is a file.
    BeforeFile,
    /// A whole group.
    Group(Group<'a>),
    Unknown,
    Command,
}

impl<A: Allocator + Clone> CommandLine<A> {
    // Adds what one more group asks for.
    fn add(&mut self, group: Group<'_>) -> Result<(), AllocError>
        ensures { OnOk result ((spelled : WordGroup) → IsGroupOf spelled group.entry
            → line_of self.new ≡ with_group (line_of self.old) spelled) }
    {
        match group {
            Group::File(name) => {
                let alloc = self.files.allocator().clone()?;
                self.files.push(String::from_str(alloc, name)?)?;
            }
            Group::List => self.list = true,
            Group::Next => self.dialect = Dialect::Next,
        }
        Ok(())
    }
}

// The group that the words begin with, and the words after it; or `None` if no option comes first.
fn first_group<'a, A: Allocator + Clone>(
    alloc: &A,
    words: &'a [String<A>],
) -> Result<Option<(Group<'a>, &'a [String<A>])>, Usage<A>>
    ensures { GroupBeginsWith (texts words.now) result }
{
    let Some((word, after)) = words.split_first() else {
        return Ok(None);
    };
    match word_of(word.as_str()) {
        Word::Command => Ok(None),
        Word::Unknown => Err(Usage::UnknownOption(String::from_str(alloc.clone()?, word)?)),
        Word::Group(group) => Ok(Some((group, after))),
        Word::BeforeFile => match after.split_first() {
            Some((name, after)) => Ok(Some((Group::File(name.as_str()), after))),
            None => Err(Usage::MissingFile),
        },
    }
}

// What the word is by itself.
fn word_of(word: &str) -> Word<'_>
    ensures { IsWord word.now result }
{
    if !word.starts_with("-") {
        return Word::Command;
    }
    match word {
        "-f" | "--file" => Word::BeforeFile,
        "--list" => Word::Group(Group::List),
        "--next" => Word::Group(Group::Next),
        _ => match attached_file(word) {
            Some(name) => Word::Group(Group::File(name)),
            None => Word::Unknown,
        },
    }
}

// The file in the same word as its option: after `--file=`, after `-f=`, or after `-f`.
fn attached_file(word: &str) -> Option<&str>
    ensures { AttachesFile word.now result }
{
    if let Some(name) = word.strip_prefix("--file=") {
        return Some(name);
    }
    let name = word.strip_prefix("-f")?;
    Some(name.strip_prefix('=').unwrap_or(name))
}
