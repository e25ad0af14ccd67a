//! A report as a command for a workflow of GitHub.

ghost use Rattle.std.specs.Prelude.{◌≡◌, ◌++◌, true, OnOk, string_bytes};
ghost use Rattle.std.specs.Option.{option_map};
ghost use Rattle.dotenvy_reports.specs.Github.{command_character, command_front, command_text, github_line, place_properties, title_property};
ghost use Rattle.dotenvy_reports.specs.Told.{told_of};

use crate::one_line::one_line;
use crate::report::{Report, message_of};
use dotenvy_findings::place::Place;
use dotenvy_format::text::split_first;
use std::alloc::{AllocError, Allocator};

// Appends a character of a command, or of a property of it.
fn push_character<A: Allocator>(
    text: &mut String<A>,
    is_property: bool,
    c: char,
) -> Result<(), AllocError>
    ensures { OnOk result (string_bytes text.new
        ≡ string_bytes text.old ++ command_character is_property c) }
{
    match c {
        '%' => text.push_str("%25"),
        '\r' => text.push_str("%0D"),
        '\n' => text.push_str("%0A"),
        ':' if is_property => text.push_str("%3A"),
        ',' if is_property => text.push_str("%2C"),
        _ => text.push(c),
    }
}

// Appends a text of a command, or of a property of it.
fn push_escaped<A: Allocator>(
    text: &mut String<A>,
    is_property: bool,
    added: &str,
) -> Result<(), AllocError>
    ensures { OnOk result (string_bytes text.new
        ≡ string_bytes text.old ++ command_text is_property added.now) }
{
    let mut rest = added;
    'characters: while let Some((first, after_first)) = split_first(rest) {
        push_character(text, is_property, first)?;
        rest = after_first;
    }
    Ok(())
}

// Appends the properties that say where it is in the file.
fn push_place<A: Allocator>(text: &mut String<A>, place: Option<Place>) -> Result<(), AllocError>
    ensures { OnOk result (string_bytes text.new
        ≡ string_bytes text.old ++ place_properties place) }
{
    match place {
        None => Ok(()),
        Some(place) => write!(text, ",line={},col={}", place.line, place.column),
    }
}

// Appends the property that names the kind.
fn push_title<A: Allocator>(text: &mut String<A>, kind: Option<&str>) -> Result<(), AllocError>
    ensures { OnOk result (string_bytes text.new
        ≡ string_bytes text.old ++ title_property (option_map (λ kind. kind.now) kind.entry)) }
{
    match kind {
        None => Ok(()),
        Some(kind) => {
            text.push_str(",title=")?;
            push_escaped(text, true, kind)
        }
    }
}

// Appends the command, as far as its message.
fn push_front<A: Allocator + Clone>(
    text: &mut String<A>,
    report: Report<'_>,
) -> Result<(), AllocError>
    ensures { OnOk result (string_bytes text.new
        ≡ string_bytes text.old ++ command_front (told_of report.entry)) }
{
    let file = one_line(text.allocator().clone()?, report.file)?;
    text.push_str("::")?;
    text.push_str(report.severity.name())?;
    text.push_str(" file=")?;
    push_escaped(text, true, file.as_str())?;
    push_place(text, report.place)?;
    push_title(text, report.kind)
}

/// Appends the line for a workflow of GitHub.
pub(crate) fn push_github<A: Allocator + Clone>(
    text: &mut String<A>,
    report: Report<'_>,
) -> Result<(), AllocError>
    ensures { OnOk result (string_bytes text.new
        ≡ string_bytes text.old ++ github_line (told_of report.entry)) }
{
    let message = message_of(text.allocator().clone()?, report)?;
    push_front(text, report)?;
    text.push_str("::")?;
    push_escaped(text, false, message.as_str())?;
    text.push('\n')
}
