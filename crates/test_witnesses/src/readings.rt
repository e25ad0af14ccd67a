//! The items and the loads of a source of pieces, up to its end or its fault, and after it.

ghost use Rattle.std.specs.Prelude.{◌≡◌, ◌↔◌, IfErr, IfOk, IsTrue, OnOk};
ghost use Rattle.dotenvy.specs.Errors.{IsMemory, IsMemoryErr};
ghost use Rattle.dotenvy.specs.Iter.{IsOpen};
ghost use Rattle.dotenvy.specs.Iteration.{GivesItems, NoneRefused};
ghost use Rattle.dotenvy.specs.Loads.{load_result, override_result};
ghost use Rattle.test_witnesses.specs.Readings.{AreAllItems, LoadsWhole};

use crate::source::Pieces;
use dotenvy::laws::{items_in_order, loads_take_all};
use dotenvy::{Dialect, Environment, Error, Iter, Result, Source};
use std::alloc::{AllocError, Global};

/// A pair, or the fault in its place.
pub type Item = Result<(String, String)>;

/// All items of these pieces: the pairs and the faults of their bytes, and last the fault at their end, if there is
/// one.
///
/// After the last item nothing comes: to load what is left changes nothing, and is no error.
pub fn items_of(
    alloc: Global,
    source: Pieces<'_>,
    dialect: Dialect,
    env: &mut Environment,
) -> Result<Vec<Item>>
    ensures all { IfOk result
        (λ given. AreAllItems dialect env.old.names source.entry given.items) }
    ensures memory { IfErr result IsMemory }
    ensures same { env.new ≡ env.old }
{
    items_in_order::<Global>();
    let mut file = Iter::with_dialect(alloc, source, dialect)?;
    let given = items_left(alloc, &mut file, env)?;
    file.load_rest(env)?;
    file.load_rest_override(env)?;
    Ok(given)
}

/// Loads these pieces: a name that is there keeps its value.
pub fn load_of(
    alloc: Global,
    source: Pieces<'_>,
    dialect: Dialect,
    env: &mut Environment,
) -> Result<()>
    ensures { LoadsWhole load_result dialect source.entry env.old.names result env.new.names }
{
    loads_take_all::<Global>();
    Iter::with_dialect(alloc, source, dialect)?.load(env)
}

/// Loads these pieces: each name that they declare is set.
pub fn load_override_of(
    alloc: Global,
    source: Pieces<'_>,
    dialect: Dialect,
    env: &mut Environment,
) -> Result<()>
    ensures { LoadsWhole override_result dialect source.entry env.old.names result env.new.names }
{
    loads_take_all::<Global>();
    Iter::with_dialect(alloc, source, dialect)?.load_override(env)
}

/// The items that an iterator has left, one after another, unless memory is refused.
pub fn items_left<R: Source>(
    alloc: Global,
    file: &mut Iter<R>,
    env: &Environment,
) -> Result<Vec<Item>>
    ensures gives { IfOk result (λ given. GivesItems env.now.names file.old given.items
        × NoneRefused given.items) }
    ensures shut { OnOk result (¬ (IsOpen file.new)) }
    ensures memory { IfErr result IsMemory }
{
    let mut given = Vec::new(alloc);
    'items: while let Some(item) = file.next_item(env) {
        if is_refused(&item) {
            return Err(Error::Memory(AllocError));
        }
        given.push(item)?;
    }
    Ok(given)
}

// Whether memory was refused.
fn is_refused(item: &Item) -> bool
    ensures { IsTrue result ↔ IsMemoryErr item.now }
{
    matches!(item, Err(Error::Memory(_)))
}
