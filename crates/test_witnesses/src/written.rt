//! Pairs that are written to a sink of turns, cut, and read back from a source of pieces.

ghost use Rattle.std.specs.Prelude.{◌≡◌, ◌++◌, ◌<◌, IfOk, OnOk, Ok, length, map};
ghost use Rattle.dotenvy.specs.Errors.{IsMemoryErr};
ghost use Rattle.dotenvy.specs.Input.{most_reads};
ghost use Rattle.dotenvy.specs.Iteration.{SayItems};
ghost use Rattle.dotenvy.specs.Laws.{until_nul, with_last_values, written_in_turn};
ghost use Rattle.dotenvy.specs.LoadsRest.{Leaves};
ghost use Rattle.dotenvy.specs.Meaning.{values_of};
ghost use Rattle.test_witnesses.specs.Turns.{held_by};
ghost use Rattle.test_witnesses.specs.Writings.{AreWritten, HaveKeys, character_pairs};

use crate::readings::{Item, items_left};
use crate::sink::{Turn, Turns};
use crate::source::{Piece, Pieces, cut};
use dotenvy::laws::written_comes_back;
use dotenvy::{Dialect, Environment, Iter, Result, write_pair};
use std::alloc::Global;

/// Writes each of these pairs, one after the other, up to the first error.
pub fn write_pairs(alloc: Global, sink: &mut Turns<'_>, pairs: &[(String, String)]) -> Result<()>
    requires { HaveKeys pairs.now }
    ensures { OnOk result (held_by sink.new
        ≡ held_by sink.old ++ written_in_turn (character_pairs pairs.now)) }
{
    let mut left = pairs;
    'pairs: while let Some((first, later)) = left.split_first() {
        write_pair(alloc, sink, &first.0, &first.1)?;
        left = later;
    }
    Ok(())
}

/// Writes these pairs to a sink that does these turns, and cuts what it then holds at these lengths.
pub fn written_pieces(
    alloc: Global,
    pairs: &[(String, String)],
    turns: &[Turn],
    lengths: &[usize],
) -> Result<Vec<Piece>>
    requires { HaveKeys pairs.now }
    ensures { IfOk result (λ pieces. AreWritten pairs.now pieces.items) }
{
    let mut sink = Turns::new(alloc, turns);
    write_pairs(alloc, &mut sink, pairs)?;
    let held = sink.into_held();
    Ok(cut(alloc, &held, lengths)?)
}

/// The items of what was written of these pairs: exactly these pairs, in order.
pub fn read_back(
    alloc: Global,
    pairs: &[(String, String)],
    pieces: &[Piece],
    dialect: Dialect,
    env: &Environment,
) -> Result<Vec<Item>>
    requires keys { HaveKeys pairs.now }
    requires written { AreWritten pairs.now pieces.now }
    ensures { IfOk result (λ given. length (written_in_turn (character_pairs pairs.now)) < most_reads →
        SayItems given.items (map Ok (character_pairs pairs.now))) }
{
    written_comes_back::<Global>();
    let mut file = Iter::with_dialect(alloc, Pieces::new(pieces, None), dialect)?;
    let given = items_left(alloc, &mut file, env)?;
    Ok(given)
}

/// Loads what was written of these pairs: each name has its last value.
pub fn load_back(
    alloc: Global,
    pairs: &[(String, String)],
    pieces: &[Piece],
    dialect: Dialect,
    env: &mut Environment,
) -> Result<()>
    requires keys { HaveKeys pairs.now }
    requires written { AreWritten pairs.now pieces.now }
    ensures { length (written_in_turn (character_pairs pairs.now)) < most_reads → ¬ (IsMemoryErr result) →
        Leaves (with_last_values (values_of env.old.names) (until_nul (character_pairs pairs.now)))
        env.new.names result }
{
    written_comes_back::<Global>();
    Iter::with_dialect(alloc, Pieces::new(pieces, None), dialect)?.load_override(env)
}
