//! The errors of the program, and what it prints of them (docs/COMMAND.md, "Texts on standard error").

use std::alloc::{AllocError, AllocFailed, Allocator, Global};
use std::{fmt, io};

/// Why the words of the command line are refused (docs/COMMAND.md, "Options and the command").
#[derive(Drop)]
#[derive_where(Debug)]
pub enum Usage<A: Allocator = Global> {
    /// There is neither a command nor `--list`.
    MissingCommand,
    /// `-f` or `--file` is the last word, and no file follows it.
    MissingFile,
    /// This word is before the command and begins with `-`, but is no option of the program.
    UnknownOption(String<A>),
    /// An allocation failed.
    Memory(AllocError),
}

impl<A: Allocator> fmt::Display for Usage<A> {
    ghost use Rattle.dotenvy_command.specs.Failures.{usage_text};
    ghost use Rattle.std.specs.Prelude.{Some};

    ghost output = { λ usage. Some (usage_text usage) };

    fn fmt<W: fmt::Write>(&self, f: &mut fmt::Formatter<W>) -> fmt::Result {
        match self {
            Usage::MissingCommand => write!(f, "missing required argument <COMMAND>"),
            Usage::MissingFile => write!(f, "missing value of <FILE>"),
            Usage::UnknownOption(word) => write!(f, "unknown option '{word}'"),
            Usage::Memory(_) => write!(f, "out of memory"),
        }
    }
}

impl<A: Allocator> From<AllocError> for Usage<A> {
    ghost use Rattle.dotenvy_command.specs.Failures.{IsMemoryFailure};

    ghost from_gives = { λ _ usage. IsMemoryFailure usage };

    fn from(refused: AllocError) -> Usage<A> {
        Usage::Memory(refused)
    }
}

/// Why a run ends with an error (docs/COMMAND.md, "Statuses").
#[derive(Drop)]
#[derive_where(Debug)]
pub enum Failure<A: Allocator = Global> {
    /// The words are refused. Nothing was read.
    Usage(Usage<A>),
    /// A file or standard input could not be read, a value could not be set, or the list could not be written.
    Load(dotenvy::Error<A>),
    /// The command could not be started, or waiting for its end failed.
    Start(io::Error),
}

impl<A: Allocator> fmt::Display for Failure<A> {
    ghost use Rattle.dotenvy_command.specs.Failures.{failure_text};

    ghost output = { failure_text };

    fn fmt<W: fmt::Write>(&self, f: &mut fmt::Formatter<W>) -> fmt::Result {
        match self {
            Failure::Usage(usage) => write!(f, "error: {usage}"),
            Failure::Load(error) => write!(f, "error: failed to load environment: {error}"),
            Failure::Start(fault) => write!(f, "fatal: {fault}"),
        }
    }
}

impl<A: Allocator> From<Usage<A>> for Failure<A> {
    ghost use Rattle.std.specs.Prelude.{◌≡◌};
    ghost use Rattle.dotenvy_command.specs.declared.failure.Failure.TheVariants.{Usage as of_usage};

    ghost from_gives = { λ usage failure. failure ≡ of_usage usage };

    fn from(usage: Usage<A>) -> Failure<A> {
        Failure::Usage(usage)
    }
}

impl<A: Allocator> From<dotenvy::Error<A>> for Failure<A> {
    ghost use Rattle.std.specs.Prelude.{◌≡◌};
    ghost use Rattle.dotenvy_command.specs.declared.failure.Failure.TheVariants.{Load as of_load};

    ghost from_gives = { λ error failure. failure ≡ of_load error };

    fn from(error: dotenvy::Error<A>) -> Failure<A> {
        Failure::Load(error)
    }
}
