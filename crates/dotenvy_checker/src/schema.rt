//! The names of a schema, compared with those that the checked files declare.

ghost use Rattle.std.specs.Prelude.{◌≡◌, ◌++◌, ◌&&◌, [], IfOk, OnOk, if◌then◌else◌, not, string_bytes};
ghost use Rattle.std.specs.Cmp.Lexicographic.{slice_cmp};
ghost use Rattle.std.specs.List.{list_any};
ghost use Rattle.std.specs.List.Sorted.{IsStrictlySortedBy};
ghost use Rattle.std.specs.Ordering.{nat_cmp};
ghost use Rattle.dotenvy_reports.specs.Formats.{separator};
ghost use Rattle.dotenvy_checker.specs.Findings.{has_value};
ghost use Rattle.dotenvy_checker.specs.Folders.{is_among};
ghost use Rattle.dotenvy_checker.specs.Report.{separated};
ghost use Rattle.dotenvy_checker.specs.Schema.{comparison_texts, difference_kind, difference_message};
ghost use Rattle.dotenvy_checker.specs.Schema.{difference_severity, found_between, is_lacking, lacked_texts};
ghost use Rattle.dotenvy_checker.specs.Schema.{names_of, telling_text};
ghost use Rattle.dotenvy_checker.specs.inside.CheckedLines.{declared_of};

use crate::declared::Declared;
use crate::report::{Found, Reporting};
use dotenvy_reports::format::Format;
use dotenvy_reports::reports::{Missing, push_missing};
use dotenvy_reports::severity::Severity;
use std::alloc::{AllocError, Allocator};
use std::collections::BTreeSet;

/// The names that files declare, each once, in the order of their bytes.
#[derive(Drop)]
pub(crate) struct DeclaredNames<A: Allocator> {
    names: BTreeSet<String<A>, A>,
}

impl<A: Allocator> DeclaredNames<A> {
    /// No names.
    pub(crate) fn new(alloc: A) -> DeclaredNames<A>
        ensures { names_of result ≡ [] }
    {
        DeclaredNames {
            names: BTreeSet::new(alloc),
        }
    }

    // Whether the name is one of these.
    fn has(&self, name: &str) -> bool
        ensures { result ≡ is_among (names_of self.now) name.now }
    {
        self.names.contains(name)
    }
}

impl<A: Allocator + Clone> DeclaredNames<A> {
    /// Adds each name that a file declares. Out of memory, it may have added some.
    pub(crate) fn add(&mut self, declared: &Declared<A>) -> Result<(), AllocError>
        ensures { OnOk result (is_among (names_of self.new)
            ≡ has_value (is_among (names_of self.old)) (declared_of declared.now)) }
    {
        'keys: for name in declared.names() {
            self.names.insert(name.clone()?)?;
        }
        Ok(())
    }
}

/// How a schema and the checked files differ in a name.
#[derive(Clone, Copy)]
enum Difference {
    /// The schema declares it, and no checked file does.
    NotDeclared,
    /// A checked file declares it, and the schema doesn't.
    NotInSchema,
}

impl Difference {
    // The name of its kind.
    fn kind(self) -> &'static str
        ensures { result.now ≡ difference_kind self }
    {
        match self {
            Difference::NotDeclared => "not-declared",
            Difference::NotInSchema => "not-in-schema",
        }
    }

    // How bad it is.
    fn severity(self) -> Severity
        ensures { result ≡ difference_severity self }
    {
        match self {
            Difference::NotDeclared => Severity::Error,
            Difference::NotInSchema => Severity::Warning,
        }
    }

    // What is said of it, before the name.
    fn message(self) -> &'static str
        ensures { result.now ≡ difference_message self }
    {
        match self {
            Difference::NotDeclared => "no checked file declares this name",
            Difference::NotInSchema => "a checked file declares this name, and this file doesn't",
        }
    }
}

// How a name is told.
#[derive(Clone, Copy)]
struct Telling<'a> {
    // The form of the report.
    format: Format,
    // Whether nothing was reported before.
    is_first: bool,
    // The file that is reported.
    file: &'a str,
    // What is told of the name.
    difference: Difference,
}

impl<'a> Telling<'a> {
    // The same of the other difference, behind other reports, if there are any.
    fn then(self, difference: Difference, is_any: bool) -> Telling<'a>
        ensures { result ≡ record self.entry {
          is_first = self.entry.is_first && not is_any;
          difference = difference;
        } }
    {
        Telling {
            is_first: self.is_first && !is_any,
            difference,
            ..self
        }
    }

    // What separates the next report from the one before.
    fn separator(self) -> &'static str
        ensures { result.now ≡ if self.entry.is_first then [] else separator self.entry.format }
    {
        if self.is_first {
            ""
        } else {
            self.format.separator()
        }
    }
}

// Appends the report of a name.
fn push_name<A: Allocator + Clone>(
    text: &mut String<A>,
    telling: Telling<'_>,
    name: &str,
) -> Result<(), AllocError>
    ensures { OnOk result (string_bytes text.new
        ≡ (string_bytes text.old
        ++ (if telling.entry.is_first then [] else separator telling.entry.format))
        ++ telling_text telling.entry name.now) }
{
    text.push_str(telling.separator())?;
    let missing = Missing {
        kind: telling.difference.kind(),
        severity: telling.difference.severity(),
        message: telling.difference.message(),
        name,
    };
    push_missing(text, telling.format, telling.file, missing)
}

// Appends the reports of those of the names that the others lack, and returns whether there is one.
fn push_lacked<A: Allocator + Clone>(
    text: &mut String<A>,
    telling: Telling<'_>,
    names: &DeclaredNames<A>,
    others: &DeclaredNames<A>,
) -> Result<bool, AllocError>
    ensures text { OnOk result (string_bytes text.new ≡ string_bytes text.old
        ++ separated telling.entry.format telling.entry.is_first
        (lacked_texts telling.entry.format telling.entry.difference telling.entry.file.now
        (names_of names.now) (names_of others.now))) }
    ensures any { IfOk result (λ is_any.
        is_any ≡ list_any (is_lacking (names_of others.now)) (names_of names.now)) }
    ensures order { IsStrictlySortedBy (slice_cmp nat_cmp) (names_of names.now) }
{
    let mut is_first = telling.is_first;
    let mut is_any = false;
    'keys: for name in names.names.iter() {
        if others.has(name.as_str()) {
            continue 'keys;
        }
        push_name(
            text,
            Telling {
                is_first,
                ..telling
            },
            name.as_str(),
        )?;
        is_first = false;
        is_any = true;
    }
    Ok(is_any)
}

/// A schema, and the names that it is compared with.
#[derive(Drop)]
pub(crate) struct Comparison<'a, A: Allocator> {
    /// The file of the schema.
    pub(crate) file: &'a str,
    /// The names that it declares.
    pub(crate) schema: &'a DeclaredNames<A>,
    /// The names that the checked files declare.
    pub(crate) files: &'a DeclaredNames<A>,
}

/// Appends the reports of all differences, in the order of the names' bytes: an error for each name of the schema that
/// no checked file declares, and then a warning for each name of the files that the schema lacks. It returns what they
/// come to. Out of memory, it may have appended a part.
pub(crate) fn push_comparison<A: Allocator + Clone>(
    text: &mut String<A>,
    how: Reporting<'_>,
    comparison: &Comparison<'_, A>,
) -> Result<Found, AllocError>
    ensures text { OnOk result (string_bytes text.new ≡ string_bytes text.old
        ++ separated how.entry.format how.entry.is_first
        (comparison_texts how.entry.format comparison.now.file.now
        (names_of comparison.now.schema.now) (names_of comparison.now.files.now))) }
    ensures found { IfOk result (λ found. found
        ≡ found_between (names_of comparison.now.schema.now) (names_of comparison.now.files.now)) }
    ensures schema_order { OnOk result
        (IsStrictlySortedBy (slice_cmp nat_cmp) (names_of comparison.now.schema.now)) }
    ensures files_order { OnOk result
        (IsStrictlySortedBy (slice_cmp nat_cmp) (names_of comparison.now.files.now)) }
{
    let missing = Telling {
        format: how.format,
        is_first: how.is_first,
        file: comparison.file,
        difference: Difference::NotDeclared,
    };
    let faults = push_lacked(text, missing, comparison.schema, comparison.files)?;
    let extra = missing.then(Difference::NotInSchema, faults);
    let warnings = push_lacked(text, extra, comparison.files, comparison.schema)?;
    Ok(Found {
        faults,
        warnings,
        denied: false,
    })
}
