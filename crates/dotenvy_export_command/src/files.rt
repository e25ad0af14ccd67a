//! The files that the words name, in the order of the words.

ghost use Rattle.std.specs.Prelude.{◌≡◌, ◌≤◌, ◌+◌, ◌++◌, ◌∷◌, [], IfOk, OnOk, drop, length, map, take, true};
ghost use Rattle.dotenvy_export_command.specs.Files.{count_before, each, first_place, merged, named_of, placed, placed_of};

use std::alloc::{AllocError, Allocator, Global};

/// A file that the words name.
#[derive(Drop)]
pub struct Named<A: Allocator = Global> {
    /// Its name.
    pub name: String<A>,
    /// Whether it may be absent.
    pub optional: bool,
}

/// A name, and its place among the words.
#[derive(Clone, Copy)]
pub(crate) struct Placed<'a> {
    pub(crate) place: usize,
    pub(crate) name: &'a str,
}

/// Names with their places. A name that has no place is behind all others.
pub(crate) fn with_places<'a, A: Allocator>(
    alloc: A,
    places: &[usize],
    names: &[&'a str],
) -> Result<Vec<Placed<'a>, A>, AllocError>
    ensures { IfOk result (λ all. map placed_of all.items
        ≡ placed places.now (map (λ name. name.now) names.now)) }
{
    let mut all = Vec::new(alloc);
    let mut rest = places;
    'names: for name in names {
        all.push(Placed {
            place: first_place(rest),
            name,
        })?;
        rest = after_first(rest);
    }
    Ok(all)
}

// The first of these places; where there is none, one behind all others.
fn first_place(places: &[usize]) -> usize
    ensures { result ≡ first_place places.now }
{
    match places.first() {
        Some(place) => *place,
        None => usize::MAX,
    }
}

// These places but for the first.
fn after_first(places: &[usize]) -> &[usize]
    ensures { result.now ≡ drop 1 places.now }
{
    match places.split_first() {
        Some((_, after)) => after,
        None => places,
    }
}

/// The files and the optional files, each file behind the optional ones whose place is before its own.
pub(crate) fn merged<A: Allocator + Clone>(
    alloc: A,
    files: &[Placed<'_>],
    optional: &[Placed<'_>],
) -> Result<Vec<Named<A>, A>, AllocError>
    ensures { IfOk result (λ named. map named_of named.items
        ≡ merged (map placed_of files.now) (map placed_of optional.now)) }
{
    let mut named = Vec::new(alloc);
    let mut next = 0;
    'files: for file in files {
        next = push_before(&mut named, optional, next, file.place)?;
        push_named(&mut named, file.name, false)?;
    }
    push_rest(&mut named, optional, next)?;
    Ok(named)
}

// Appends the optional files from this one on, up to the first that is not before a place, and returns which that is.
fn push_before<A: Allocator + Clone>(
    named: &mut Vec<Named<A>, A>,
    optional: &[Placed<'_>],
    from: usize,
    place: usize,
) -> Result<usize, AllocError>
    requires { from ≤ length optional.now }
    ensures bound { IfOk result (λ next. next ≤ length optional.now) }
    ensures next { IfOk result
        (λ next. next ≡ from + count_before place (drop from (map placed_of optional.now))) }
    ensures named { OnOk result (map named_of named.new.items ≡ map named_of named.old.items
        ++ each true (take (count_before place (drop from (map placed_of optional.now)))
        (drop from (map placed_of optional.now)))) }
{
    let mut next = from;
    'optional: while let Some(file) = optional.get(next) {
        if file.place >= place {
            return Ok(next);
        }
        push_named(named, file.name, true)?;
        next += 1;
    }
    Ok(next)
}

// Appends the optional files from this one on.
fn push_rest<A: Allocator + Clone>(
    named: &mut Vec<Named<A>, A>,
    optional: &[Placed<'_>],
    from: usize,
) -> Result<(), AllocError>
    requires { from ≤ length optional.now }
    ensures { OnOk result (map named_of named.new.items ≡ map named_of named.old.items
        ++ each true (drop from (map placed_of optional.now))) }
{
    'optional: for file in &optional[from..] {
        push_named(named, file.name, true)?;
    }
    Ok(())
}

// Appends a file.
fn push_named<A: Allocator + Clone>(
    named: &mut Vec<Named<A>, A>,
    name: &str,
    optional: bool,
) -> Result<(), AllocError>
    ensures { OnOk result (map named_of named.new.items
        ≡ map named_of named.old.items ++ (name.now, optional) ∷ []) }
{
    let name = String::from_str(named.allocator().clone()?, name)?;
    named.push(Named { name, optional })?;
    Ok(())
}
