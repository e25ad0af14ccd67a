//! Says texts on standard error.

ghost use Rattle.dotenvy_streams.specs.Telling.{Says, line_or};

use dotenvy::{Error, Sink};
use dotenvy_base::output::{MOST_WRITES, write_all};
use std::alloc::{AllocError, Allocator};

/// Says a text. If it can't be said, nothing else is done about it.
pub fn say<A: Allocator, E: Sink>(errors: &mut E, text: &str)
    ensures { Says A E.told errors.old errors.new text.now }
{
    let _said: Result<(), Error<A>> = write_all(errors, text.as_bytes(), MOST_WRITES);
}

/// Says a line, or another text if an allocation for the line failed.
pub fn say_line<A: Allocator, E: Sink>(
    errors: &mut E,
    line: Result<String<A>, AllocError>,
    otherwise: &str,
)
    ensures { Says A E.told errors.old errors.new (line_or otherwise.now line) }
{
    match line {
        Ok(line) => say::<A, E>(errors, line.as_str()),
        Err(_) => say::<A, E>(errors, otherwise),
    }
}
