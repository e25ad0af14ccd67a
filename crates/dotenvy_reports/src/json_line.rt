//! A report as a line of JSON.

ghost use Rattle.std.specs.Prelude.{◌≡◌, ◌++◌, OnOk, string_bytes};
ghost use Rattle.std.specs.Option.{option_map};
ghost use Rattle.dotenvy_reports.specs.JsonLines.{front_members, guess_member, json_line, json_tokens, kind_member, other_member, place_members, said_members};
ghost use Rattle.dotenvy_reports.specs.Told.{told_of};
ghost use Rattle.dotenvy_reports.specs.inside.Writing.{Adds};

use crate::members::{push_written, write_number, write_text};
use crate::one_line::one_line;
use crate::report::Report;
use dotenvy_findings::place::Place;
use json::Writer;
use std::alloc::{AllocError, Allocator};

// Writes the members that say where it is in the file.
fn write_place<A: Allocator>(writer: &mut Writer<A>, place: Option<Place>) -> Result<(), AllocError>
    ensures { Adds result writer.old writer.new (place_members place) }
{
    match place {
        None => Ok(()),
        Some(place) => {
            write_number(writer, "line", place.line)?;
            write_number(writer, "column", place.column)
        }
    }
}

// Writes the member that names the kind.
fn write_kind<A: Allocator>(writer: &mut Writer<A>, kind: Option<&str>) -> Result<(), AllocError>
    ensures { Adds result writer.old writer.new
        (kind_member (option_map (λ kind. kind.now) kind.entry)) }
{
    match kind {
        None => Ok(()),
        Some(kind) => write_text(writer, "kind", kind),
    }
}

// Writes the member that is the line of the other declaration.
fn write_other<A: Allocator>(writer: &mut Writer<A>, other: u64) -> Result<(), AllocError>
    ensures { Adds result writer.old writer.new (other_member other) }
{
    if other == 0 {
        Ok(())
    } else {
        write_number(writer, "other", other)
    }
}

// Writes the member that says that it is a guess.
fn write_guess<A: Allocator>(writer: &mut Writer<A>, is_guess: bool) -> Result<(), AllocError>
    ensures { Adds result writer.old writer.new (guess_member is_guess) }
{
    if is_guess {
        writer.key("guess")?;
        writer.boolean(true)
    } else {
        Ok(())
    }
}

// Writes the members before the kind.
fn write_front<A: Allocator + Clone>(
    writer: &mut Writer<A>,
    alloc: A,
    report: Report<'_>,
) -> Result<(), AllocError>
    ensures { Adds result writer.old writer.new (front_members (told_of report.entry)) }
{
    let file = one_line(alloc, report.file)?;
    write_text(writer, "file", file.as_str())?;
    write_place(writer, report.place)?;
    write_text(writer, "severity", report.severity.name())
}

// Writes the members from the kind on.
fn write_said<A: Allocator>(writer: &mut Writer<A>, report: Report<'_>) -> Result<(), AllocError>
    ensures { Adds result writer.old writer.new (said_members (told_of report.entry)) }
{
    write_kind(writer, report.kind)?;
    write_text(writer, "message", report.message)?;
    write_other(writer, report.other)?;
    write_guess(writer, report.is_guess)
}

// Writes the object.
fn write_object<A: Allocator + Clone>(
    writer: &mut Writer<A>,
    alloc: A,
    report: Report<'_>,
) -> Result<(), AllocError>
    ensures { Adds result writer.old writer.new (json_tokens (told_of report.entry)) }
{
    writer.begin_object()?;
    write_front(writer, alloc, report)?;
    write_said(writer, report)?;
    writer.end_object()
}

/// Appends the line of JSON.
pub(crate) fn push_json<A: Allocator + Clone>(
    text: &mut String<A>,
    report: Report<'_>,
) -> Result<(), AllocError>
    ensures { OnOk result (string_bytes text.new
        ≡ string_bytes text.old ++ json_line (told_of report.entry)) }
{
    let mut writer = Writer::new(Vec::new(text.allocator().clone()?));
    write_object(&mut writer, text.allocator().clone()?, report)?;
    push_written(text, writer)?;
    text.push('\n')
}
