//! What was found of the options, by their names.

ghost use Rattle.std.specs.Prelude.{◌≡◌};
ghost use Rattle.clap.specs.Words.{found_of, rows_of};
ghost use Rattle.dotenvy_words.specs.Found.{dialect_of, is_on};

use clap::ArgMatches;
use dotenvy_format::dialect::Dialect;

/// Whether an option without a value was given.
pub fn is_on(found: &ArgMatches<'_>, name: &str) -> bool
    ensures { result ≡ is_on name.now (rows_of (found_of found.now)) }
{
    match found.get_str(name) {
        Some(value) => value == "true",
        None => false,
    }
}

/// The dialect of the files, which is the second one with the option `--next`.
pub fn dialect(found: &ArgMatches<'_>) -> Dialect
    ensures { result ≡ dialect_of (rows_of (found_of found.now)) }
{
    if is_on(found, "next") {
        Dialect::Next
    } else {
        Dialect::V15
    }
}
