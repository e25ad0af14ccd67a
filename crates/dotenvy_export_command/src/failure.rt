//! Why nothing is written, and what the program prints of it.

use crate::targets::target_name;
use clap::error::ErrorKind;
use dotenvy::Error;
use dotenvy_exporter::refusal::Reason;
use dotenvy_exporter::target::Target;
use dotenvy_words::mistake::mistake_text;
use std::alloc::{AllocError, AllocFailed, Allocator, Global};
use std::fmt;

/// Why a call of the program is wrong.
#[derive(Drop)]
#[derive_where(Debug)]
pub enum Usage<A: Allocator = Global> {
    /// The words are refused: why, and the first word that is refused, as it is printed.
    Word(ErrorKind, String<A>),
    /// No word names a target.
    NoTarget,
    /// There is no target of this name, as it is printed.
    Target(String<A>),
}

/// Why nothing is written, or not all.
#[derive(Drop)]
#[derive_where(Debug)]
pub enum Failure<A: Allocator = Global> {
    /// The call is wrong.
    Usage(Usage<A>),
    /// This file, as it is printed, can't be read.
    File(String<A>, Error<A>),
    /// In this file, as it is printed, a load stops at this line.
    Line(String<A>, u64),
    /// In this file, at this line, the value of this name has a NUL. The file and the name are as they are printed.
    Nul(String<A>, u64, String<A>),
    /// The target can't be given the pair with this name, as it is printed.
    Refused(Target, String<A>, Reason),
    /// Standard output can't be written.
    Write(Error<A>),
    /// An allocation failed.
    Memory(AllocError),
}

impl<A: Allocator> fmt::Display for Usage<A> {
    ghost use Rattle.dotenvy_export_command.specs.Failures.{usage_text};
    ghost use Rattle.std.specs.Prelude.{Some};

    ghost output = { λ usage. Some (usage_text usage) };

    fn fmt<W: fmt::Write>(&self, f: &mut fmt::Formatter<W>) -> fmt::Result {
        match self {
            Usage::Word(kind, word) => {
                let mistake = mistake_text(*kind);
                write!(f, "error: {mistake} '{word}'; try 'dotenvy_export --help'")
            }
            Usage::NoTarget => write!(f, "error: there is no TARGET; try 'dotenvy_export --help'"),
            Usage::Target(name) => write!(
                f,
                "error: unknown target '{name}'; try 'dotenvy_export --help'"
            ),
        }
    }
}

// Why a target of this name can't be given a pair.
#[derive(Clone, Copy)]
struct Refusal<'a> {
    target: &'a str,
    reason: Reason,
}

impl fmt::Display for Refusal<'_> {
    ghost use Rattle.dotenvy_export_command.specs.Failures.{refusal_text};
    ghost use Rattle.std.specs.Prelude.{Some};

    ghost output = { λ refusal. Some (refusal_text refusal.target.now refusal.reason) };

    fn fmt<W: fmt::Write>(&self, f: &mut fmt::Formatter<W>) -> fmt::Result {
        let target = self.target;
        match self.reason {
            Reason::Name => write!(f, "{target} can't be given this name"),
            Reason::Reserved => {
                write!(
                    f,
                    "shells keep this name; 'dotenvy_export --skip-reserved' leaves it out"
                )
            }
            Reason::Nul => write!(f, "the value has a NUL, which {target} can't be given"),
            Reason::LineFeed => {
                write!(
                    f,
                    "the value has a line feed, which {target} can't be given"
                )
            }
            Reason::TooLong => write!(
                f,
                "the line has 65,536 bytes or more, which {target} can't be given"
            ),
            Reason::Noncharacter => write!(
                f,
                "the value has a noncharacter, such as U+FFFF, which {target} can't be given"
            ),
        }
    }
}

impl<A: Allocator> fmt::Display for Failure<A> {
    ghost use Rattle.dotenvy_export_command.specs.Failures.{failure_text};

    ghost output = { failure_text };

    fn fmt<W: fmt::Write>(&self, f: &mut fmt::Formatter<W>) -> fmt::Result {
        match self {
            Failure::Usage(usage) => write!(f, "{usage}"),
            Failure::File(file, error) => write!(f, "error: {file}: {error}"),
            Failure::Line(file, line) => write!(
                f,
                "error: {file}:{line}: this line can't be read; dotenvy_check says why"
            ),
            Failure::Nul(file, line, name) => write!(
                f,
                "error: {file}:{line}: {name}: the value has a NUL, which no environment can hold"
            ),
            Failure::Refused(target, name, reason) => {
                let target = target_name(*target);
                let refusal = Refusal {
                    target,
                    reason: *reason,
                };
                write!(f, "error: {name}: {refusal}")
            }
            Failure::Write(error) => write!(f, "error: standard output: {error}"),
            Failure::Memory(_) => write!(f, "error: out of memory"),
        }
    }
}

impl<A: Allocator> From<AllocError> for Failure<A> {
    ghost use Rattle.dotenvy_export_command.specs.Failures.{IsMemoryEnd};

    ghost from_gives = { λ _ failure. IsMemoryEnd failure };

    fn from(refused: AllocError) -> Failure<A> {
        Failure::Memory(refused)
    }
}

impl<T: Drop, A: Allocator> From<AllocFailed<T>> for Failure<A> {
    ghost use Rattle.dotenvy_export_command.specs.Failures.{IsMemoryEnd};

    ghost from_gives = { λ _ failure. IsMemoryEnd failure };

    fn from(refused: AllocFailed<T>) -> Failure<A> {
        Failure::Memory(refused.into())
    }
}
