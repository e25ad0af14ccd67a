//! What is said on standard error.

ghost use Rattle.std.specs.Prelude.{IfOk, codes, string_bytes};
ghost use Rattle.dotenvy_streams.specs.Telling.{IsLine};
ghost use Rattle.dotenvy_edit_command.specs.Ends.{SaysFailure};
ghost use Rattle.dotenvy_edit_command.specs.Failures.{failure_text};

use crate::failure::Failure;
use dotenvy::Sink;
use dotenvy_streams::telling::say_line;
use std::alloc::{AllocError, Allocator};

/// Says on one line why something is not done.
pub(crate) fn say_failure<A: Allocator, E: Sink>(alloc: A, errors: &mut E, failure: &Failure<A>)
    ensures { SaysFailure E.told errors.old errors.new failure.now }
{
    let line = failure_line(alloc, failure);
    say_line(errors, line, "dotenvy_edit: error: out of memory\n");
}

// The line of a failure.
fn failure_line<A: Allocator>(alloc: A, failure: &Failure<A>) -> Result<String<A>, AllocError>
    ensures { IfOk result (λ line. IsLine (codes "dotenvy_edit: ")
        (failure_text failure.now) (string_bytes line)) }
{
    format!(in alloc; "dotenvy_edit: {failure}\n")
}
