//! What a caller asks of a call by its options.

ghost use Rattle.std.specs.Prelude.{◌≡◌};
ghost use Rattle.dotenvy_c.specs.Options.{are_among, dialect_of, has_option, how_asked};

use dotenvy::Dialect;
use dotenvy_editor::writing::How;

/// `dotenvy_load`: a name that is there gets the value that the file gives it.
pub const OVERRIDE: u32 = 1;

/// All calls on a file: it is read in the second dialect.
pub const NEXT_DIALECT: u32 = 2;

/// `dotenvy_items`, `dotenvy_whole`: a byte order mark at the start of the file is dropped. A load always drops it.
pub const DROP_MARK: u32 = 4;

/// `dotenvy_set`: the readers of Python, Node and Ruby have to give the value, too.
pub const PORTABLE: u32 = 8;

/// `dotenvy_items`: the text of a pair is its value with each name in it as it is written.
pub const AS_WRITTEN: u32 = 16;

/// Whether no option is set but these.
pub fn are_among(options: u32, known: u32) -> bool
    ensures { result ≡ are_among options known }
{
    options | known == known
}

/// Whether this option is set.
pub fn has_option(options: u32, option: u32) -> bool
    ensures { result ≡ has_option options option }
{
    options & option != 0
}

/// The dialect that the options ask for.
pub fn dialect_of(options: u32) -> Dialect
    ensures { result ≡ dialect_of options }
{
    if has_option(options, NEXT_DIALECT) {
        Dialect::Next
    } else {
        Dialect::V15
    }
}

/// How the options ask a key to be set.
pub fn how_of(options: u32) -> How
    ensures { result ≡ how_asked options }
{
    How {
        dialect: dialect_of(options),
        is_portable: has_option(options, PORTABLE),
    }
}
