//! Reports as SARIF 2.1.0: a result for each report, and what stands around the results.

ghost use Rattle.std.specs.Prelude.{◌≡◌, ◌++◌, OnOk, string_bytes};
ghost use Rattle.std.specs.Option.{option_map};
ghost use Rattle.dotenvy_reports.specs.Sarif.{document_members, driver_members, found_members, location, locations_member, region_member, result_tokens, rule_of, sarif_end, sarif_result, sarif_start, start_tokens, tool_member};
ghost use Rattle.dotenvy_reports.specs.Told.{told_of};
ghost use Rattle.dotenvy_reports.specs.inside.Writing.{Adds};

use crate::members::{push_written, write_number, write_text};
use crate::report::{Report, message_of};
use crate::rules::{write_rules, write_text_object};
use crate::uri::uri;
use dotenvy_findings::place::Place;
use json::Writer;
use std::alloc::{AllocError, Allocator};

// Writes the member that says where it is in the file.
fn write_region<A: Allocator>(
    writer: &mut Writer<A>,
    place: Option<Place>,
) -> Result<(), AllocError>
    ensures { Adds result writer.old writer.new (region_member place) }
{
    match place {
        None => Ok(()),
        Some(place) => {
            writer.key("region")?;
            writer.begin_object()?;
            write_number(writer, "startLine", place.line)?;
            write_number(writer, "startColumn", place.column)?;
            writer.end_object()
        }
    }
}

// Writes where it is: the file, and the place if there is one.
fn write_location<A: Allocator>(
    writer: &mut Writer<A>,
    alloc: A,
    report: Report<'_>,
) -> Result<(), AllocError>
    ensures { Adds result writer.old writer.new (location (told_of report.entry)) }
{
    let file = uri(alloc, report.file)?;
    writer.begin_object()?;
    writer.key("physicalLocation")?;
    writer.begin_object()?;
    write_text_object(writer, "artifactLocation", "uri", file.as_str())?;
    write_region(writer, report.place)?;
    writer.end_object()?;
    writer.end_object()
}

// Writes the member that lists where it is.
fn write_locations<A: Allocator>(
    writer: &mut Writer<A>,
    alloc: A,
    report: Report<'_>,
) -> Result<(), AllocError>
    ensures { Adds result writer.old writer.new (locations_member (told_of report.entry)) }
{
    writer.key("locations")?;
    writer.begin_array()?;
    write_location(writer, alloc, report)?;
    writer.end_array()
}

// The rule of a kind.
fn rule_of(kind: Option<&str>) -> &str
    ensures { result.now ≡ rule_of (option_map (λ kind. kind.now) kind.entry) }
{
    match kind {
        Some(kind) => kind,
        None => "unread-file",
    }
}

// Writes the members that say what is found.
fn write_found<A: Allocator>(
    writer: &mut Writer<A>,
    alloc: A,
    report: Report<'_>,
) -> Result<(), AllocError>
    ensures { Adds result writer.old writer.new (found_members (told_of report.entry)) }
{
    let message = message_of(alloc, report)?;
    write_text(writer, "ruleId", rule_of(report.kind))?;
    write_text(writer, "level", report.severity.name())?;
    write_text_object(writer, "message", "text", message.as_str())
}

// Writes a result.
fn write_result<A: Allocator + Clone>(
    writer: &mut Writer<A>,
    alloc: A,
    report: Report<'_>,
) -> Result<(), AllocError>
    ensures { Adds result writer.old writer.new (result_tokens (told_of report.entry)) }
{
    writer.begin_object()?;
    write_found(writer, alloc.clone()?, report)?;
    write_locations(writer, alloc, report)?;
    writer.end_object()
}

/// Appends a result.
pub(crate) fn push_result<A: Allocator + Clone>(
    text: &mut String<A>,
    report: Report<'_>,
) -> Result<(), AllocError>
    ensures { OnOk result (string_bytes text.new
        ≡ string_bytes text.old ++ sarif_result (told_of report.entry)) }
{
    let mut writer = Writer::new(Vec::new(text.allocator().clone()?));
    write_result(&mut writer, text.allocator().clone()?, report)?;
    push_written(text, writer)
}

// Writes the members that say what made the document.
fn write_driver<A: Allocator>(writer: &mut Writer<A>, version: &str) -> Result<(), AllocError>
    ensures { Adds result writer.old writer.new (driver_members version.now) }
{
    write_text(writer, "name", "dotenvy_check")?;
    write_text(writer, "version", version)?;
    writer.key("rules")?;
    writer.begin_array()?;
    write_rules(writer)?;
    writer.end_array()
}

// Writes the member that says what made the document, in this version.
fn write_tool<A: Allocator>(writer: &mut Writer<A>, version: &str) -> Result<(), AllocError>
    ensures { Adds result writer.old writer.new (tool_member version.now) }
{
    writer.key("tool")?;
    writer.begin_object()?;
    writer.key("driver")?;
    writer.begin_object()?;
    write_driver(writer, version)?;
    writer.end_object()?;
    writer.end_object()
}

// Writes the members of the document before its only run.
fn write_document<A: Allocator>(writer: &mut Writer<A>) -> Result<(), AllocError>
    ensures { Adds result writer.old writer.new document_members }
{
    write_text(
        writer,
        "$schema",
        "https://json.schemastore.org/sarif-2.1.0.json",
    )?;
    write_text(writer, "version", "2.1.0")
}

// Writes what stands before the first result.
fn write_start<A: Allocator>(writer: &mut Writer<A>, version: &str) -> Result<(), AllocError>
    ensures { Adds result writer.old writer.new (start_tokens version.now) }
{
    writer.begin_object()?;
    write_document(writer)?;
    writer.key("runs")?;
    writer.begin_array()?;
    writer.begin_object()?;
    write_tool(writer, version)?;
    write_text(writer, "columnKind", "unicodeCodePoints")?;
    writer.key("results")?;
    writer.begin_array()
}

/// Appends what stands before the first result. The caller separates the results by what `Format::separator` gives.
/// Out of memory, it may have appended a part.
///
/// ```text
/// push_sarif_start(&mut text, "0.15.7")? // appends {"$schema":..,"version":"2.1.0","runs":[{"tool":..,"results":[
/// ```
pub fn push_sarif_start<A: Allocator + Clone>(
    text: &mut String<A>,
    version: &str,
) -> Result<(), AllocError>
    ensures { OnOk result (string_bytes text.new
        ≡ string_bytes text.old ++ sarif_start version.now) }
{
    let mut writer = Writer::new(Vec::new(text.allocator().clone()?));
    write_start(&mut writer, version)?;
    push_written(text, writer)
}

/// Appends what stands behind the last result. Out of memory, it may have appended a part.
///
/// ```text
/// push_sarif_end(&mut text)? // appends "]}]}\n"
/// ```
pub fn push_sarif_end<A: Allocator>(text: &mut String<A>) -> Result<(), AllocError>
    ensures { OnOk result (string_bytes text.new ≡ string_bytes text.old ++ sarif_end) }
{
    text.push_str("]}]}\n")
}
