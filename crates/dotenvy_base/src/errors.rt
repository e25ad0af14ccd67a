//! The errors of the library: why a call failed, and what is printed of it.

ghost use Rattle.std.specs.Prelude.{◌≡◌, ◌⊎◌, ◌↔◌, IsTrue};
ghost use Rattle.std.specs.Str.{chars};
ghost use Rattle.dotenvy_base.specs.Errors.{IsNotFound, IsMemory, IsLineParseOf, or_memory};

use std::alloc::{AllocError, AllocFailed, Allocator, Global};
use std::{error, fmt, io};

/// Why a name has no value.
///
/// ```
/// // var(&rt, &mut environment, "HOST") without such a name: Err(Error::EnvVar(VarError::NotPresent))
/// ```
#[derive(Clone, Debug, PartialEq, Eq, Drop, thiserror::Error)]
pub enum VarError {
    /// The environment has no such name.
    #[error("environment variable not found")]
    NotPresent,
}

/// Why a call failed.
///
/// docs/GRAMMAR.md says what each variant prints, in "Faults and their places".
///
/// ```
/// match dotenv(&rt, &mut environment) {
///     Err(Error::LineParse(text, place)) => println!(rt; "at {place} in {text}")?,
///     outcome => { outcome?; }
/// }
/// ```
#[derive(Drop)]
#[derive_where(Debug)]
pub enum Error<A: Allocator = Global> {
    /// A line of the file is wrong: the text at fault, and the place in it where a reader has to give up, counted
    /// from 0.
    ///
    /// If the line is no `KEY=value`, the text is the whole line, and the place counts bytes. If only the value is
    /// wrong, the text is the value without its key, and the place counts characters. If a quote or a brace is never
    /// closed, the place says nothing: look for where it opens (docs/GRAMMAR.md, "Faults and their places").
    LineParse(String<A>, usize),
    /// A reader, a writer, a file or a directory failed, and this is its error.
    ///
    /// The library makes some of these itself: of kind `InvalidData` for a line that is not UTF-8, `NotFound` if no
    /// file was found, `WriteZero` for a write that took nothing, and `Other` if the number of reads or writes reached
    /// its bound.
    Io(io::Error),
    /// A name that was asked for has no value.
    EnvVar(VarError),
    /// The value of this key was to be set and has a NUL, which no environment can hold.
    Nul(String<A>),
    /// An allocation failed.
    Memory(AllocError),
}

/// The result of a call of the library: a value, or an [`Error`].
///
/// ```
/// fn host(environment: &Environment) -> Result<String> { .. }
/// ```
pub type Result<T, A = Global> = std::result::Result<T, Error<A>>;

impl<A: Allocator> Error<A> {
    /// Whether a file or a directory was not found: an `Io` of kind `NotFound`. Callers often ignore this error, since
    /// the file may be optional.
    ///
    /// ```
    /// match outcome {
    ///     Err(e) if e.not_found() => Ok(()),
    ///     outcome => outcome,
    /// }
    /// ```
    pub fn not_found(&self) -> bool
        ensures { IsTrue result ↔ IsNotFound self.now }
    {
        match self {
            Error::Io(e) => e.kind() == io::ErrorKind::NotFound,
            _ => false,
        }
    }
}

/// The error for a wrong text: a `LineParse` with a copy of the text and this index, or `Memory` if it can't be copied.
///
/// Whether the index counts bytes or characters is up to the caller (docs/GRAMMAR.md, "Faults and their places").
pub fn fault_error<A: Allocator>(alloc: A, text: &str, index: usize) -> Error<A>
    ensures { IsMemory result ⊎ IsLineParseOf (chars text.now) index result }
{
    match String::from_str(alloc, text) {
        Ok(text) => Error::LineParse(text, index),
        Err(refused) => Error::Memory(refused),
    }
}

/// The same error, except that an `Io` of kind `OutOfMemory` becomes `Memory`, so that callers have one case to match.
pub fn or_memory<A: Allocator>(error: Error<A>) -> Error<A>
    ensures { result ≡ or_memory error }
{
    match error {
        Error::Io(fault) if fault.kind() == io::ErrorKind::OutOfMemory => Error::Memory(AllocError),
        error => error,
    }
}

impl<A: Allocator> fmt::Display for Error<A> {
    ghost use Rattle.dotenvy_base.specs.Errors.{error_text};

    ghost output = { error_text };

    fn fmt<W: fmt::Write>(&self, f: &mut fmt::Formatter<W>) -> fmt::Result {
        match self {
            Error::LineParse(line, index) => write!(
                f,
                "Error parsing line: '{line}', error at line index: {index}"
            ),
            Error::Io(e) => write!(f, "{e}"),
            Error::EnvVar(e) => write!(f, "{e}"),
            Error::Nul(key) => write!(f, "value of '{key}' contains a NUL"),
            Error::Memory(_) => write!(f, "out of memory"),
        }
    }
}

impl<A: Allocator> error::Error for Error<A> {}

impl<A: Allocator> From<AllocError> for Error<A> {
    ghost use Rattle.dotenvy_base.specs.Errors.{IsMemory};

    ghost from_gives = { λ _ e. IsMemory e };

    fn from(refused: AllocError) -> Error<A> {
        Error::Memory(refused)
    }
}

impl<T: Drop, A: Allocator> From<AllocFailed<T>> for Error<A> {
    ghost use Rattle.dotenvy_base.specs.Errors.{IsMemory};

    ghost from_gives = { λ _ e. IsMemory e };

    fn from(_refused: AllocFailed<T>) -> Error<A> {
        Error::Memory(AllocError)
    }
}

impl<A: Allocator> From<io::Error> for Error<A> {
    ghost use Rattle.std.specs.Prelude.{◌≡◌};
    ghost use Rattle.dotenvy_base.specs.declared.errors.Error.TheVariants.{Io as io_error};

    ghost from_gives = { λ fault e. e ≡ io_error fault };

    fn from(fault: io::Error) -> Error<A> {
        Error::Io(fault)
    }
}
