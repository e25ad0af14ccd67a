//! How a file is reported: what is told of it once names that a later line declares are known, and in which form.

ghost use Rattle.std.specs.Prelude.{◌≡◌, ◌||◌, ◌&&◌, ◌++◌, ◌∷◌, [], if◌then◌else◌, OnOk, map, string_bytes};
ghost use Rattle.dotenvy_checker.specs.Checks.{both, found_of};
ghost use Rattle.dotenvy_checker.specs.Findings.{comments_from, is_allowed_on, is_among, is_told, is_unknown, resolved};
ghost use Rattle.dotenvy_findings.specs.Comments.{allow_of};
ghost use Rattle.dotenvy_checker.specs.Report.{said_line, said_text};
ghost use Rattle.dotenvy_reports.specs.Formats.{separator};
ghost use Rattle.dotenvy_checker.specs.inside.CheckedLines.{declared_of, remark_of};
ghost use Rattle.dotenvy_checker.specs.inside.ToldLines.{above_of};

use crate::declared::Declared;
use crate::lines::Pending;
use dotenvy::Error;
use dotenvy_findings::comments::AllowComment;
use dotenvy_findings::finding::Finding;
use dotenvy_findings::kind::Kind;
use dotenvy_reports::format::Format;
use dotenvy_reports::reports::push_unread;
use std::alloc::{AllocError, Allocator};

/// How a file is reported.
#[derive(Clone, Copy)]
pub struct Reporting<'a> {
    /// The form of the report.
    pub format: Format,
    /// The kinds of warnings that are not reported.
    pub allowed: &'a [Kind],
    /// The kinds of warnings that count as faults.
    pub denied: &'a [Kind],
    /// Whether what a load says of a line with a fault is printed behind the fault, where the form is text.
    pub text: bool,
    /// Whether nothing was reported before.
    pub is_first: bool,
}

impl<'a> Reporting<'a> {
    /// Lines of text, with all findings.
    pub const TEXT: Reporting<'static> = Reporting {
        format: Format::Text,
        allowed: &[],
        denied: &[],
        text: false,
        is_first: true,
    };
}

/// What is reported of a file.
#[derive(Clone, Copy, Debug, PartialEq, Eq)]
pub struct Found {
    /// Whether there is a fault.
    pub faults: bool,
    /// Whether there is a warning that is no guess.
    pub warnings: bool,
    /// Whether there is such a warning of a kind that is denied.
    pub denied: bool,
}

// Whether the kind is one of these.
fn is_among(kind: Kind, kinds: &[Kind]) -> bool
    ensures { result ≡ is_among kind kinds.now }
{
    let mut rest = kinds;
    'kinds: while let Some((first, after)) = rest.split_first() {
        if first.number() == kind.number() {
            return true;
        }
        rest = after;
    }
    false
}

impl Found {
    /// Nothing.
    pub const NOTHING: Found = Found {
        faults: false,
        warnings: false,
        denied: false,
    };

    /// What is found in two files together.
    pub fn and(self, other: Found) -> Found
        ensures { result ≡ both self other }
    {
        Found {
            faults: self.faults || other.faults,
            warnings: self.warnings || other.warnings,
            denied: self.denied || other.denied,
        }
    }

    /// Whether this counts: there is a fault, or a denied warning, or a warning if all count.
    pub fn is_bad(self, is_strict: bool) -> bool
        ensures { result ≡ (self.faults || self.denied || (is_strict && self.warnings)) }
    {
        self.faults || self.denied || is_strict && self.warnings
    }

    /// What a finding is, where warnings of these kinds are denied. A guess is neither a fault nor a warning.
    pub(crate) fn of(finding: Finding, denied: &[Kind]) -> Found
        ensures { result ≡ found_of denied.now finding }
    {
        let is_fault = finding.kind.is_fault();
        let is_warning = !is_fault && !finding.is_guess;
        Found {
            faults: is_fault && !finding.is_guess,
            warnings: is_warning,
            denied: is_warning && is_among(finding.kind, denied),
        }
    }
}

/// The comments from this line on.
pub(crate) fn comments_from<A: Allocator>(
    line: u64,
    comments: &[AllowComment<A>],
) -> &[AllowComment<A>]
    ensures { map allow_of result.now ≡ comments_from line (map allow_of comments.now) }
{
    let mut rest = comments;
    'comments: while let Some((first, after)) = rest.split_first() {
        if first.line >= line {
            return rest;
        }
        rest = after;
    }
    rest
}

/// A line above a finding, or 0, and the kinds that a comment on it allows.
#[derive(Drop)]
pub(crate) struct LineAbove<A: Allocator> {
    pub(crate) line: u64,
    pub(crate) kinds: Vec<Kind, A>,
}

// Whether the last line above a finding is this one, and a comment on it allows the kind.
fn is_allowed_on<A: Allocator>(line: u64, kind: Kind, last: &LineAbove<A>) -> bool
    ensures { result ≡ is_allowed_on line kind (above_of last.now ∷ []) }
{
    last.line == line && is_among(kind, last.kinds.as_slice())
}

/// Whether a finding is told, above whose line this one is: it is an error, or of no kind that is allowed, and the
/// comment on the line above, if that is the last one above a finding, does not allow it.
pub(crate) fn is_told<A: Allocator>(
    finding: Finding,
    above: u64,
    allowed: &[Kind],
    last: &LineAbove<A>,
) -> bool
    ensures { result ≡ is_told allowed.now (above_of last.now ∷ []) above finding }
{
    finding.kind.is_fault() && !finding.is_guess
        || !(is_among(finding.kind, allowed) || is_allowed_on(above, finding.kind, last))
}

/// Appends what separates two findings, unless this is the first.
pub(crate) fn push_separator<A: Allocator>(
    text: &mut String<A>,
    format: Format,
    is_first: bool,
) -> Result<(), AllocError>
    ensures { OnOk result (string_bytes text.new
        ≡ string_bytes text.old ++ (if is_first then [] else separator format)) }
{
    if is_first {
        return Ok(());
    }
    text.push_str(format.separator())
}

/// Appends what a load says of a line, if that is told and the form is text.
pub(crate) fn push_said<A: Allocator>(
    text: &mut String<A>,
    format: Format,
    said: &str,
) -> Result<(), AllocError>
    ensures { OnOk result (string_bytes text.new
        ≡ string_bytes text.old ++ said_text format said.now) }
{
    match format {
        Format::Text => push_said_line(text, said),
        Format::Github | Format::Sarif | Format::Json => Ok(()),
    }
}

// Appends what a load says of a line, as a line of its own, if that is told.
fn push_said_line<A: Allocator>(text: &mut String<A>, said: &str) -> Result<(), AllocError>
    ensures { OnOk result (string_bytes text.new ≡ string_bytes text.old ++ said_line said.now) }
{
    if said.is_empty() {
        return Ok(());
    }
    text.push_str("    ")?;
    text.push_str(said)?;
    text.push('\n')
}

/// Whether a name that has no value is found, and no other thing.
pub(crate) fn is_unknown(kind: Kind) -> bool
    ensures { result ≡ is_unknown kind }
{
    matches!(kind, Kind::UnknownName | Kind::UnknownBracedName)
}

/// What is found, where these names are declared.
pub(crate) fn resolved<A: Allocator>(declared: &Declared<A>, pending: &Pending<A>) -> Finding
    ensures { result ≡ resolved (declared_of declared.now) (remark_of pending.now) }
{
    let finding = pending.finding;
    if !is_unknown(finding.kind) {
        return finding;
    }
    match declared.first_line(pending.name.as_str()) {
        Some(line) => Finding {
            kind: Kind::LaterName,
            other: line,
            ..finding
        },
        None => finding,
    }
}

/// What is reported of a file that could not be opened or read: its name, and the error.
pub(crate) fn unread_line<A: Allocator + Clone>(
    alloc: &A,
    file: &str,
    error: &Error<A>,
    how: Reporting<'_>,
) -> Result<String<A>, AllocError> {
    let mut line = String::new(alloc.clone()?);
    let said = format!(in alloc.clone()?; "{error}")?;
    push_separator(&mut line, how.format, how.is_first)?;
    push_unread(&mut line, how.format, file, said.as_str())?;
    Ok(line)
}
