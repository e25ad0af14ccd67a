//! Why a check stops before it has checked all files, and what the program prints of it.

ghost use Rattle.std.specs.Prelude.{◌≡◌};
ghost use Rattle.dotenvy_checker.specs.Answers.{value_text};

use crate::mistake::Mistake;
use clap::error::ErrorKind;
use dotenvy::Error;
use dotenvy_words::mistake::mistake_text;
use std::alloc::{AllocError, AllocFailed, Allocator, Global};
use std::fmt;

/// Why the check of a file stops.
#[derive(Drop)]
#[derive_where(Debug)]
pub enum Stop<A: Allocator = Global> {
    /// The file could not be read to its end. All that was found before is printed.
    Read(Error<A>),
    /// The report could not be written. The rest of the file is not read.
    Write(Error<A>),
    /// An allocation failed. What was told before is printed.
    Memory(AllocError),
}

impl<A: Allocator> From<AllocError> for Stop<A> {
    ghost use Rattle.dotenvy_checker.specs.Checks.{IsMemoryStop};

    ghost from_gives = { λ _ stop. IsMemoryStop stop };

    fn from(refused: AllocError) -> Stop<A> {
        Stop::Memory(refused)
    }
}

/// Why the program ends with an error on standard error.
#[derive(Drop)]
#[derive_where(Debug)]
pub enum Failure<A: Allocator = Global> {
    /// The words are refused: why, and the first word that is refused, as it is printed.
    Usage(ErrorKind, String<A>),
    /// A value of an option is refused: why, and the value, as it is printed.
    Value(Mistake, String<A>),
    /// The report could not be written.
    Write(Error<A>),
    /// An allocation failed.
    Memory(AllocError),
}

// What is said of a mistake in a value, before the value.
fn value_text(mistake: Mistake) -> &'static str
    ensures { result.now ≡ value_text mistake }
{
    match mistake {
        Mistake::UnknownKind => "there is no kind",
        Mistake::AllowedError => "only a warning can be allowed, not",
        Mistake::UnknownFormat => "there is no format",
    }
}

impl<A: Allocator> fmt::Display for Failure<A> {
    ghost use Rattle.dotenvy_checker.specs.Answers.{end_text};

    ghost output = { end_text };

    fn fmt<W: fmt::Write>(&self, f: &mut fmt::Formatter<W>) -> fmt::Result {
        match self {
            Failure::Usage(kind, word) => {
                let mistake = mistake_text(*kind);
                write!(f, "error: {mistake} '{word}'; try 'dotenvy_check --help'")
            }
            Failure::Value(mistake, value) => {
                let mistake = value_text(*mistake);
                write!(f, "error: {mistake} '{value}'; try 'dotenvy_check --help'")
            }
            Failure::Write(error) => write!(f, "error: {error}"),
            Failure::Memory(_) => write!(f, "error: out of memory"),
        }
    }
}

impl<A: Allocator> From<AllocError> for Failure<A> {
    ghost use Rattle.dotenvy_checker.specs.Answers.{IsMemoryEnd};

    ghost from_gives = { λ _ failure. IsMemoryEnd failure };

    fn from(refused: AllocError) -> Failure<A> {
        Failure::Memory(refused)
    }
}

impl<T: Drop, A: Allocator> From<AllocFailed<T>> for Failure<A> {
    ghost use Rattle.dotenvy_checker.specs.Answers.{IsMemoryEnd};

    ghost from_gives = { λ _ failure. IsMemoryEnd failure };

    fn from(refused: AllocFailed<T>) -> Failure<A> {
        Failure::Memory(refused.into())
    }
}
