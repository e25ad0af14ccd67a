//! Why the program does not do what it was asked for, and what it prints of it.

use crate::replacement::{Step, Unreplaced};
use clap::error::ErrorKind;
use dotenvy::Error;
use dotenvy_editor::refusal::{Reason, Refusal, Unportable};
use dotenvy_words::mistake::mistake_text;
use std::alloc::{AllocError, AllocFailed, Allocator, Global};
use std::fmt;

/// A word that a command lacks.
#[derive(Clone, Copy, Debug, PartialEq, Eq, Drop)]
pub enum Lacked {
    /// The file.
    File,
    /// The name, or the first one.
    Name,
    /// The name that is to be renamed.
    Old,
    /// The name that it is to have.
    New,
}

/// Why a call of the program is wrong.
#[derive(Drop)]
#[derive_where(Debug)]
pub enum Usage<A: Allocator = Global> {
    /// The words are refused: why, and the first word that is refused, as it is printed.
    Word(ErrorKind, String<A>),
    /// No word is a command.
    NoCommand,
    /// There is no command of this name, as it is printed.
    Command(String<A>),
    /// The command lacks this word.
    Lacks(Lacked),
    /// The command takes no such word, as it is printed.
    Unexpected(String<A>),
}

/// A name in a file, both as they are printed.
#[derive(Drop)]
#[derive_where(Debug)]
pub struct Place<A: Allocator = Global> {
    /// The file.
    pub file: String<A>,
    /// The name.
    pub name: String<A>,
}

/// Why the program does not do what it was asked for.
#[derive(Drop)]
#[derive_where(Debug)]
pub enum Failure<A: Allocator = Global> {
    /// The call is wrong.
    Usage(Usage<A>),
    /// This file, as it is printed, can't be read.
    File(String<A>, Error<A>),
    /// Standard input can't be read.
    Input(Error<A>),
    /// What standard input has isn't UTF-8, and so can't be a value of this name.
    Value(Place<A>),
    /// The edit of this name is refused.
    Refused(Place<A>, Refusal),
    /// A load stops at this line, before the name.
    Stops(Place<A>, u64),
    /// This file, as it is printed, was not replaced.
    Unreplaced(String<A>, Unreplaced),
    /// Standard output can't be written.
    Write(Error<A>),
    /// An allocation failed.
    Memory(AllocError),
}

impl fmt::Display for Lacked {
    ghost use Rattle.dotenvy_edit_command.specs.Failures.{lacked_text};
    ghost use Rattle.std.specs.Prelude.{Some};

    ghost output = { λ lacked. Some (lacked_text lacked) };

    fn fmt<W: fmt::Write>(&self, f: &mut fmt::Formatter<W>) -> fmt::Result {
        match self {
            Lacked::File => write!(f, "FILE"),
            Lacked::Name => write!(f, "NAME"),
            Lacked::Old => write!(f, "OLD"),
            Lacked::New => write!(f, "NEW"),
        }
    }
}

impl<A: Allocator> fmt::Display for Usage<A> {
    ghost use Rattle.dotenvy_edit_command.specs.Failures.{usage_text};
    ghost use Rattle.std.specs.Prelude.{Some};

    ghost output = { λ usage. Some (usage_text usage) };

    fn fmt<W: fmt::Write>(&self, f: &mut fmt::Formatter<W>) -> fmt::Result {
        match self {
            Usage::Word(kind, word) => {
                let mistake = mistake_text(*kind);
                write!(f, "error: {mistake} '{word}'; try 'dotenvy_edit --help'")
            }
            Usage::NoCommand => write!(f, "error: there is no command; try 'dotenvy_edit --help'"),
            Usage::Command(name) => write!(
                f,
                "error: unknown command '{name}'; try 'dotenvy_edit --help'"
            ),
            Usage::Lacks(lacked) => {
                write!(f, "error: there is no {lacked}; try 'dotenvy_edit --help'")
            }
            Usage::Unexpected(word) => write!(
                f,
                "error: unexpected word '{word}'; try 'dotenvy_edit --help'"
            ),
        }
    }
}

// Why a value has no portable form.
#[derive(Clone, Copy)]
struct Form(Unportable);

impl fmt::Display for Form {
    ghost use Rattle.dotenvy_edit_command.specs.Failures.{form_text};
    ghost use Rattle.std.specs.Prelude.{Some};

    ghost output = { λ form. Some (form_text form.0) };

    fn fmt<W: fmt::Write>(&self, f: &mut fmt::Formatter<W>) -> fmt::Result {
        match self.0 {
            Unportable::CarriageReturn => write!(f, "a carriage return"),
            Unportable::Apostrophe => {
                write!(
                    f,
                    "a single quote, and a double quote, a dollar or a backslash"
                )
            }
            Unportable::LineFeed => {
                write!(
                    f,
                    "a line feed, and a double quote, a dollar or a backslash"
                )
            }
            Unportable::Backslashes => write!(f, "two backslashes in a row"),
            Unportable::LastBackslash => write!(f, "a backslash at its end"),
            Unportable::Substitution => write!(f, "a dollar and braces"),
            Unportable::Mark => write!(f, "a byte order mark before it"),
            Unportable::WhiteSpace => write!(f, "white space around it other than spaces"),
            Unportable::Comment => write!(f, "a comment behind it with its quotes"),
        }
    }
}

// Why an edit is refused, of a name in a file.
#[derive(Clone, Copy)]
struct Refused<'a> {
    file: &'a str,
    name: &'a str,
    refusal: Refusal,
}

impl fmt::Display for Refused<'_> {
    ghost use Rattle.dotenvy_edit_command.specs.Failures.{refusal_text};
    ghost use Rattle.std.specs.Prelude.{Some};

    ghost output = { λ refused. Some (refusal_text refused.file.now refused.name.now refused.refusal) };

    fn fmt<W: fmt::Write>(&self, f: &mut fmt::Formatter<W>) -> fmt::Result {
        let Refused {
            file,
            name,
            refusal,
        } = *self;
        let line = refusal.line;
        match refusal.reason {
            Reason::Key => write!(f, "{name}: this can't be a name"),
            Reason::Nul => write!(f, "{name}: the value has a NUL"),
            Reason::Absent => write!(f, "{file}: {name} is not in this file"),
            Reason::Present => write!(f, "{file}:{line}: {name} is there already"),
            Reason::QuoteOpen => {
                write!(f, "{file}:{line}: an open end, so nothing can be appended")
            }
            Reason::EndOpen => write!(
                f,
                "{file}:{line}: an open end, so nothing can be appended; end it with a line feed"
            ),
            Reason::Unreadable => write!(
                f,
                "{file}:{line}: this line of {name} has an open end, or isn't UTF-8"
            ),
            Reason::LongComment => write!(
                f,
                "{file}:{line}: the comment runs over several lines, and would be cut, or go"
            ),
            Reason::Unportable(form) => match form {
                Unportable::Mark => write!(f, "{file}:{line}: a byte order mark is not portable"),
                Unportable::WhiteSpace => write!(
                    f,
                    "{file}:{line}: white space other than spaces is not portable"
                ),
                Unportable::Comment => write!(
                    f,
                    "{file}:{line}: the comment has the quotes of a portable value"
                ),
                _ => {
                    let form = Form(form);
                    write!(
                        f,
                        "{name}: the value has no portable form, since it has {form}"
                    )
                }
            },
        }
    }
}

// What could not be done with the new file.
#[derive(Clone, Copy)]
struct Undone(Step);

impl fmt::Display for Undone {
    ghost use Rattle.dotenvy_edit_command.specs.Failures.{step_text};
    ghost use Rattle.std.specs.Prelude.{Some};

    ghost output = { λ undone. Some (step_text undone.0) };

    fn fmt<W: fmt::Write>(&self, f: &mut fmt::Formatter<W>) -> fmt::Result {
        match self.0 {
            Step::Make => write!(f, "no new file can be made beside it"),
            Step::Write => write!(f, "the new file can't be written"),
            Step::Owner => write!(f, "the new file can't have its owner"),
            Step::Permissions => write!(f, "the new file can't have its permissions"),
            Step::Sync => write!(f, "the new file can't be synced"),
            Step::Put => write!(f, "the new file can't take its place"),
            Step::SyncFolder => write!(f, "it is replaced, but its folder can't be synced"),
            Step::Remove => write!(f, "the new file can't be removed"),
        }
    }
}

impl<A: Allocator> fmt::Display for Failure<A> {
    ghost use Rattle.dotenvy_edit_command.specs.Failures.{failure_text};

    ghost output = { failure_text };

    fn fmt<W: fmt::Write>(&self, f: &mut fmt::Formatter<W>) -> fmt::Result {
        match self {
            Failure::Usage(usage) => write!(f, "{usage}"),
            Failure::File(file, error) => write!(f, "error: {file}: {error}"),
            Failure::Input(error) => write!(f, "error: standard input: {error}"),
            Failure::Value(place) => {
                let name = place.name.as_str();
                write!(f, "error: {name}: the value isn't UTF-8")
            }
            Failure::Refused(place, refusal) => {
                let refused = Refused {
                    file: place.file.as_str(),
                    name: place.name.as_str(),
                    refusal: *refusal,
                };
                write!(f, "error: {refused}")
            }
            Failure::Stops(place, line) => {
                let (file, name) = (place.file.as_str(), place.name.as_str());
                write!(
                    f,
                    "error: {file}:{line}: a load stops at this line, before {name}"
                )
            }
            Failure::Unreplaced(file, unreplaced) => {
                let undone = Undone(unreplaced.step);
                let fault = &unreplaced.fault;
                match &unreplaced.left {
                    None => write!(f, "error: {file}: {undone}: {fault}"),
                    Some(_) => write!(f, "error: {file}: {undone}: {fault}; it is left beside it"),
                }
            }
            Failure::Write(error) => write!(f, "error: standard output: {error}"),
            Failure::Memory(_) => write!(f, "error: out of memory"),
        }
    }
}

impl<A: Allocator> Failure<A> {
    ghost use Rattle.std.specs.Prelude.{◌≡◌};
    ghost use Rattle.dotenvy_edit_command.specs.Failures.{failure_status};

    /// The status to end with: 1 if the name is not there or the edit is refused, else 2.
    pub fn status(&self) -> u8
        ensures { result ≡ failure_status self.now }
    {
        match self {
            Failure::Value(_) | Failure::Refused(_, _) | Failure::Stops(_, _) => 1,
            _ => 2,
        }
    }
}

impl<A: Allocator> From<AllocError> for Failure<A> {
    ghost use Rattle.dotenvy_edit_command.specs.Failures.{IsMemoryEnd};

    ghost from_gives = { λ _ failure. IsMemoryEnd failure };

    fn from(refused: AllocError) -> Failure<A> {
        Failure::Memory(refused)
    }
}

impl<T: Drop, A: Allocator> From<AllocFailed<T>> for Failure<A> {
    ghost use Rattle.dotenvy_edit_command.specs.Failures.{IsMemoryEnd};

    ghost from_gives = { λ _ failure. IsMemoryEnd failure };

    fn from(refused: AllocFailed<T>) -> Failure<A> {
        Failure::Memory(refused.into())
    }
}
