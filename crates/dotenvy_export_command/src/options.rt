//! What was found of the words, by the names of the options.

ghost use Rattle.std.specs.Prelude.{◌≡◌, IfOk, map};
ghost use Rattle.clap.specs.Words.{found_of, rows_of};
ghost use Rattle.dotenvy_export_command.specs.Files.{files_of, named_of, placed, placed_of, places_of};
ghost use Rattle.dotenvy_words.specs.Found.{is_on, values_of};
ghost use Rattle.dotenvy_export_command.specs.Words.{asked_of, target_of};

use crate::files::{Named, Placed, merged, with_places};
use crate::targets::target_named;
use clap::ArgMatches;
use dotenvy_exporter::target::Target;
use dotenvy_words::found::is_on;
use env_layers::Mode;
use std::alloc::{AllocError, Allocator};

/// What a file does with a name that has a value.
pub(crate) fn mode(found: &ArgMatches<'_>) -> Mode
    ensures { result ≡ (asked_of (rows_of (found_of found.now))).mode }
{
    if is_on(found, "override") {
        Mode::Override
    } else {
        Mode::Keep
    }
}

/// The target, if there is one of the name that was given.
pub(crate) fn target(found: &ArgMatches<'_>) -> Option<Target>
    ensures { result ≡ target_of (rows_of (found_of found.now)) }
{
    match found.get_str("target") {
        Some(name) => target_named(name),
        None => None,
    }
}

/// The files, in the order of the words.
pub(crate) fn files<A: Allocator + Clone>(
    alloc: A,
    found: &ArgMatches<'_>,
) -> Result<Vec<Named<A>, A>, AllocError>
    ensures { IfOk result (λ files. map named_of files.items ≡ files_of (found_of found.now)) }
{
    let files = located(alloc.clone()?, found, "file")?;
    let optional = located(alloc.clone()?, found, "optional")?;
    merged(alloc, files.as_slice(), optional.as_slice())
}

// The values of an option, or the files, with their places among the words.
fn located<'a, A: Allocator>(
    alloc: A,
    found: &ArgMatches<'a>,
    name: &str,
) -> Result<Vec<Placed<'a>, A>, AllocError>
    ensures { IfOk result (λ files. map placed_of files.items
        ≡ placed (places_of name.now (found_of found.now))
        (values_of name.now (rows_of (found_of found.now)))) }
{
    match found.get_strs(name) {
        Some(names) => match found.indices_of(name) {
            Some(places) => with_places(alloc, places, names),
            None => with_places(alloc, &[], names),
        },
        None => Ok(Vec::new(alloc)),
    }
}
