//! What is said of a mistake in the words.

ghost use Rattle.std.specs.Prelude.{◌≡◌};
ghost use Rattle.dotenvy_words.specs.Refused.{mistake_text};

use clap::error::ErrorKind;

/// What is said of a mistake of this kind, before the word that has it.
pub fn mistake_text(kind: ErrorKind) -> &'static str
    ensures { result.now ≡ mistake_text kind }
{
    match kind {
        ErrorKind::TooManyValues => "unexpected value in",
        ErrorKind::InvalidValue => "no value after",
        _ => "unknown option",
    }
}
