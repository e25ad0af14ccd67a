//! The rules of SARIF: one for each kind of findings.

ghost use Rattle.std.specs.List.{flat_map};
ghost use Rattle.dotenvy_reports.specs.Sarif.{kind_rule, rule, rules, text_object};
ghost use Rattle.dotenvy_reports.specs.inside.Writing.{Adds};

use crate::members::write_text;
use dotenvy_findings::kind::Kind;
use dotenvy_findings::named::KINDS;
use json::Writer;
use std::alloc::{AllocError, Allocator};

/// Writes a member that is an object with one member, which is a text.
pub(crate) fn write_text_object<A: Allocator>(
    writer: &mut Writer<A>,
    outer: &str,
    name: &str,
    text: &str,
) -> Result<(), AllocError>
    ensures { Adds result writer.old writer.new (text_object outer.now name.now text.now) }
{
    writer.key(outer)?;
    writer.begin_object()?;
    write_text(writer, name, text)?;
    writer.end_object()
}

// Writes a rule with this name, of which this is said.
fn write_rule<A: Allocator>(
    writer: &mut Writer<A>,
    name: &str,
    said: &str,
) -> Result<(), AllocError>
    ensures { Adds result writer.old writer.new (rule name.now said.now) }
{
    writer.begin_object()?;
    write_text(writer, "id", name)?;
    write_text_object(writer, "shortDescription", "text", said)?;
    writer.end_object()
}

// Writes the rule of a kind of findings.
fn write_kind_rule<A: Allocator>(writer: &mut Writer<A>, kind: Kind) -> Result<(), AllocError>
    ensures { Adds result writer.old writer.new (kind_rule kind) }
{
    write_rule(writer, kind.name(), kind.message())
}

// Writes the rules of these kinds.
fn write_kind_rules<A: Allocator>(writer: &mut Writer<A>, kinds: &[Kind]) -> Result<(), AllocError>
    ensures { Adds result writer.old writer.new (flat_map kind_rule kinds.now) }
{
    'kinds: for kind in kinds {
        write_kind_rule(writer, *kind)?;
    }
    Ok(())
}

/// Writes the rules: one for each kind, and one for files that were not read.
pub(crate) fn write_rules<A: Allocator>(writer: &mut Writer<A>) -> Result<(), AllocError>
    ensures { Adds result writer.old writer.new rules }
{
    write_kind_rules(writer, &KINDS)?;
    write_rule(writer, "unread-file", "the file was not read")
}
