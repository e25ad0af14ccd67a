//! What was found of the options, by their names.

ghost use Rattle.std.specs.Prelude.{◌≡◌, ◌++◌, ◌∷◌, [], IfOk, OnOk, map, string_bytes};
ghost use Rattle.std.specs.Option.{option_map};
ghost use Rattle.clap.specs.Words.{first_of, found_of, rows_of};
ghost use Rattle.dotenvy_words.specs.Found.{texts, values_of};
ghost use Rattle.dotenvy_checker.specs.Words.{format_of, kinds_of};

use clap::ArgMatches;
use dotenvy_findings::kind::Kind;
use dotenvy_findings::named::kind_named;
use dotenvy_reports::format::Format;
use std::alloc::{AllocError, Allocator};

/// The format of the report.
pub(crate) fn format_of(found: &ArgMatches<'_>) -> Format
    ensures { result ≡ format_of (rows_of (found_of found.now)) }
{
    match found.get_str("format") {
        Some(name) => match Format::from_name(name) {
            Some(format) => format,
            None => Format::Text,
        },
        None => Format::Text,
    }
}

/// A copy of the value of an option, if it was given.
pub(crate) fn text<A: Allocator>(
    alloc: A,
    found: &ArgMatches<'_>,
    name: &str,
) -> Result<Option<String<A>>, AllocError>
    ensures { IfOk result (λ copy. option_map string_bytes copy
        ≡ first_of name.now (rows_of (found_of found.now))) }
{
    match found.get_str(name) {
        Some(value) => Ok(Some(String::from_str(alloc, value)?)),
        None => Ok(None),
    }
}

/// Copies of the values of an option, or of the files, in their order.
pub(crate) fn texts<A: Allocator + Clone>(
    alloc: A,
    found: &ArgMatches<'_>,
    name: &str,
) -> Result<Vec<String<A>, A>, AllocError>
    ensures { IfOk result (λ copies. texts copies.items
        ≡ values_of name.now (rows_of (found_of found.now))) }
{
    match found.get_strs(name) {
        Some(values) => copied(alloc, values),
        None => Ok(Vec::new(alloc)),
    }
}

// Copies of texts.
fn copied<A: Allocator + Clone>(alloc: A, names: &[&str]) -> Result<Vec<String<A>, A>, AllocError>
    ensures { IfOk result (λ copies. texts copies.items ≡ map (λ name. name.now) names.now) }
{
    let mut copies = Vec::new(alloc.clone()?);
    'names: for name in names {
        copies.push(String::from_str(alloc.clone()?, name)?)?;
    }
    Ok(copies)
}

/// The kinds that the values of an option name. A value that names no kind is left out.
pub(crate) fn kinds<A: Allocator>(
    alloc: A,
    found: &ArgMatches<'_>,
    name: &str,
) -> Result<Vec<Kind, A>, AllocError>
    ensures { IfOk result (λ kinds. kinds.items
        ≡ kinds_of (values_of name.now (rows_of (found_of found.now)))) }
{
    match found.get_strs(name) {
        Some(names) => kinds_named(alloc, names),
        None => Ok(Vec::new(alloc)),
    }
}

// The kinds that have these names.
fn kinds_named<A: Allocator>(alloc: A, names: &[&str]) -> Result<Vec<Kind, A>, AllocError>
    ensures { IfOk result (λ kinds. kinds.items ≡ kinds_of (map (λ name. name.now) names.now)) }
{
    let mut kinds = Vec::new(alloc);
    'names: for name in names {
        push_kind(&mut kinds, name)?;
    }
    Ok(kinds)
}

// Appends the kind that has this name, if there is one.
fn push_kind<A: Allocator>(kinds: &mut Vec<Kind, A>, name: &str) -> Result<(), AllocError>
    ensures { OnOk result (kinds.new.items ≡ kinds.old.items ++ kinds_of (name.now ∷ [])) }
{
    match kind_named(name) {
        Some(kind) => kinds.push(kind)?,
        None => {}
    }
    Ok(())
}
