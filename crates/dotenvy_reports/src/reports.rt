//! Reports, in each form.

ghost use Rattle.std.specs.Prelude.{◌≡◌, ◌++◌, IfOk, OnOk, string_bytes};
ghost use Rattle.dotenvy_reports.specs.Reports.{name_message, report_text, told_finding, told_missing, told_said, told_unread};
ghost use Rattle.dotenvy_reports.specs.Told.{told_of};

use crate::format::Format;
use crate::github::push_github;
use crate::json_line::push_json;
use crate::one_line::{one_line, push_one_line};
use crate::report::Report;
use crate::sarif::push_result;
use crate::severity::Severity;
use crate::text::push_text;
use dotenvy_findings::finding::Finding;
use std::alloc::{AllocError, Allocator};

/// Something that is wrong with a file because of a name, and stands on no line of it.
///
/// ```text
/// Missing { kind: "not-declared", severity: Severity::Error, message: "this name is not declared", name: "PORT" }
/// ```
#[derive(Clone, Copy)]
pub struct Missing<'a> {
    /// The name of its kind.
    pub kind: &'a str,
    /// How bad it is.
    pub severity: Severity,
    /// What is wrong.
    pub message: &'a str,
    /// The name.
    pub name: &'a str,
}

// Appends a report in this form.
fn push_report<A: Allocator + Clone>(
    text: &mut String<A>,
    format: Format,
    report: Report<'_>,
) -> Result<(), AllocError>
    ensures { OnOk result (string_bytes text.new
        ≡ string_bytes text.old ++ report_text format (told_of report.entry)) }
{
    match format {
        Format::Text => push_text(text, report),
        Format::Github => push_github(text, report),
        Format::Sarif => push_result(text, report),
        Format::Json => push_json(text, report),
    }
}

// What is said of a file, with no place in it.
#[derive(Clone, Copy)]
struct Said<'a> {
    // How bad it is.
    severity: Severity,
    // The name of its kind, if it has one.
    kind: Option<&'a str>,
    // What is wrong, on one line.
    message: &'a str,
}

// Appends the report of what is said of a file.
fn push_of_file<A: Allocator + Clone>(
    text: &mut String<A>,
    format: Format,
    file: &str,
    said: Said<'_>,
) -> Result<(), AllocError>
    ensures { OnOk result (string_bytes text.new
        ≡ string_bytes text.old ++ report_text format (told_said file.now said.entry)) }
{
    let report = Report {
        file,
        place: None,
        severity: said.severity,
        kind: said.kind,
        message: said.message,
        other: 0,
        is_guess: false,
    };
    push_report(text, format, report)
}

/// Appends the report of a finding in the file with this name: a line, or a result of SARIF. Out of memory, it may have
/// appended a part.
///
/// ```text
/// push_finding(&mut text, Format::Text, ".env", finding)?
/// // appends ".env:1:6: error: a value with a space needs quotes; put it in double quotes [space-in-value]\n"
/// ```
pub fn push_finding<A: Allocator + Clone>(
    text: &mut String<A>,
    format: Format,
    file: &str,
    finding: Finding,
) -> Result<(), AllocError>
    ensures { OnOk result (string_bytes text.new
        ≡ string_bytes text.old ++ report_text format (told_finding file.now finding)) }
{
    let report = Report {
        file,
        place: Some(finding.place),
        severity: Severity::of(finding),
        kind: Some(finding.kind.name()),
        message: finding.kind.message(),
        other: finding.other,
        is_guess: finding.is_guess,
    };
    push_report(text, format, report)
}

/// Appends the report of a file that could not be read, for this reason. Out of memory, it may have appended a part.
///
/// ```text
/// push_unread(&mut text, Format::Text, ".env", "permission denied")? // appends ".env: error: permission denied\n"
/// ```
pub fn push_unread<A: Allocator + Clone>(
    text: &mut String<A>,
    format: Format,
    file: &str,
    reason: &str,
) -> Result<(), AllocError>
    ensures { OnOk result (string_bytes text.new
        ≡ string_bytes text.old ++ report_text format (told_unread file.now reason.now)) }
{
    let message = one_line(text.allocator().clone()?, reason)?;
    push_of_file(
        text,
        format,
        file,
        Said {
            severity: Severity::Error,
            kind: None,
            message: message.as_str(),
        },
    )
}

// What is said of a name.
fn name_message<A: Allocator>(alloc: A, message: &str, name: &str) -> Result<String<A>, AllocError>
    ensures { IfOk result (λ text. string_bytes text ≡ name_message message.now name.now) }
{
    let mut text = String::new(alloc);
    push_one_line(&mut text, message)?;
    text.push_str(": ")?;
    push_one_line(&mut text, name)?;
    Ok(text)
}

/// Appends the report of a name that is missing in the file with this name. Out of memory, it may have appended a part.
///
/// ```text
/// push_missing(&mut text, Format::Text, ".env", missing)?
/// // appends ".env: error: this name is not declared: PORT [not-declared]\n"
/// ```
pub fn push_missing<A: Allocator + Clone>(
    text: &mut String<A>,
    format: Format,
    file: &str,
    missing: Missing<'_>,
) -> Result<(), AllocError>
    ensures { OnOk result (string_bytes text.new
        ≡ string_bytes text.old ++ report_text format (told_missing file.now missing.entry)) }
{
    let kind = one_line(text.allocator().clone()?, missing.kind)?;
    let message = name_message(text.allocator().clone()?, missing.message, missing.name)?;
    push_of_file(
        text,
        format,
        file,
        Said {
            severity: missing.severity,
            kind: Some(kind.as_str()),
            message: message.as_str(),
        },
    )
}
