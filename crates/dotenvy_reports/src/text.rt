//! A report as a line for a reader.

ghost use Rattle.std.specs.Prelude.{◌≡◌, ◌++◌, OnOk, string_bytes};
ghost use Rattle.std.specs.Option.{option_map};
ghost use Rattle.dotenvy_reports.specs.Texts.{front_text, kind_text, place_text, text_line};
ghost use Rattle.dotenvy_reports.specs.Told.{told_of};

use crate::one_line::push_one_line;
use crate::report::{Report, push_message};
use dotenvy_findings::place::Place;
use std::alloc::{AllocError, Allocator};

// Appends a place as it stands behind the file.
fn push_place<A: Allocator>(text: &mut String<A>, place: Option<Place>) -> Result<(), AllocError>
    ensures { OnOk result (string_bytes text.new ≡ string_bytes text.old ++ place_text place) }
{
    match place {
        None => Ok(()),
        Some(place) => write!(text, ":{}:{}", place.line, place.column),
    }
}

// Appends a kind as it stands at the end of a line.
fn push_kind<A: Allocator>(text: &mut String<A>, kind: Option<&str>) -> Result<(), AllocError>
    ensures { OnOk result (string_bytes text.new
        ≡ string_bytes text.old ++ kind_text (option_map (λ kind. kind.now) kind.entry)) }
{
    match kind {
        None => Ok(()),
        Some(kind) => write!(text, " [{kind}]"),
    }
}

// Appends where it is, and how bad it is.
fn push_front<A: Allocator>(text: &mut String<A>, report: Report<'_>) -> Result<(), AllocError>
    ensures { OnOk result (string_bytes text.new
        ≡ string_bytes text.old ++ front_text (told_of report.entry)) }
{
    push_one_line(text, report.file)?;
    push_place(text, report.place)?;
    text.push_str(": ")?;
    text.push_str(report.severity.name())?;
    text.push_str(": ")
}

/// Appends the line for a reader.
pub(crate) fn push_text<A: Allocator>(
    text: &mut String<A>,
    report: Report<'_>,
) -> Result<(), AllocError>
    ensures { OnOk result (string_bytes text.new
        ≡ string_bytes text.old ++ text_line (told_of report.entry)) }
{
    push_front(text, report)?;
    push_message(text, report)?;
    push_kind(text, report.kind)?;
    text.push('\n')
}
