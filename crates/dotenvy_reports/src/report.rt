//! What a report tells, whatever its form.

ghost use Rattle.std.specs.Prelude.{◌≡◌, ◌++◌, IfOk, OnOk, string_bytes};
ghost use Rattle.dotenvy_reports.specs.Told.{guess_text, message_text, other_text, told_of};

use crate::severity::Severity;
use dotenvy_findings::place::Place;
use std::alloc::{AllocError, Allocator};

/// What a report tells.
#[derive(Clone, Copy)]
pub(crate) struct Report<'a> {
    /// The file's name.
    pub(crate) file: &'a str,
    /// Where it is in the file, if it has a place there.
    pub(crate) place: Option<Place>,
    /// How bad it is.
    pub(crate) severity: Severity,
    /// The name of its kind, if it has one.
    pub(crate) kind: Option<&'a str>,
    /// What is wrong, on one line.
    pub(crate) message: &'a str,
    /// The line of the other declaration, or 0.
    pub(crate) other: u64,
    /// Whether it is a guess.
    pub(crate) is_guess: bool,
}

// Appends what is said of a guess.
fn push_guess<A: Allocator>(text: &mut String<A>, is_guess: bool) -> Result<(), AllocError>
    ensures { OnOk result (string_bytes text.new ≡ string_bytes text.old ++ guess_text is_guess) }
{
    if is_guess {
        text.push_str(" (after the open quote)")
    } else {
        Ok(())
    }
}

// Appends what is said of the line of the other declaration.
fn push_other<A: Allocator>(text: &mut String<A>, other: u64) -> Result<(), AllocError>
    ensures { OnOk result (string_bytes text.new ≡ string_bytes text.old ++ other_text other) }
{
    if other == 0 {
        Ok(())
    } else {
        write!(text, " (line {other})")
    }
}

/// Appends the message, with what stands behind it.
pub(crate) fn push_message<A: Allocator>(
    text: &mut String<A>,
    report: Report<'_>,
) -> Result<(), AllocError>
    ensures { OnOk result (string_bytes text.new
        ≡ string_bytes text.old ++ message_text (told_of report.entry)) }
{
    text.push_str(report.message)?;
    push_guess(text, report.is_guess)?;
    push_other(text, report.other)
}

/// The message, with what stands behind it.
pub(crate) fn message_of<A: Allocator>(
    alloc: A,
    report: Report<'_>,
) -> Result<String<A>, AllocError>
    ensures { IfOk result (λ message. string_bytes message ≡ message_text (told_of report.entry)) }
{
    let mut message = String::new(alloc);
    push_message(&mut message, report)?;
    Ok(message)
}
