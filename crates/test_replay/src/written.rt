//! Rows of the kinds `written`, `pair`, `list` and `writes`: what is written, to which writer, and what it reads back
//! as.

use crate::answer::{push_answer, push_compared};
use crate::file::{CUTS, dialect, environment, listing};
use crate::row::refuse_count;
use anyhow::{Result, bail};
use dotenvy::{Bytes, Dialect, Iter, Plain, Sink, is_key};
use std::alloc::Global;
use test_comparison::Comparison;
use test_support::answers::{items, written};
use test_support::notation::{pair, pairs};
use test_support::reader::PlayedReader;
use test_support::telling::{Telling, spelled};
use test_support::writer::PlayedWriter;
use test_support::{reader, writer};

fn write_pair<W: Sink>(
    alloc: Global,
    writer: &mut W,
    key: &str,
    value: &str,
) -> Result<dotenvy::Result<()>> {
    if !is_key(key) {
        bail!("no key: {key}");
    }
    Ok(dotenvy::write_pair(alloc, writer, key, value))
}

// These pairs, written one after another.
fn written_pairs(alloc: Global, field: &str) -> Result<Vec<u8>> {
    let mut writer = Plain::new(Vec::new(alloc));
    for (key, value) in pairs(alloc, field)? {
        write_pair(alloc, &mut writer, key.as_str(), value.as_str())??;
    }
    Ok(writer.into_inner())
}

// The items of the bytes, where some names are there: nothing is substituted.
fn read_back(alloc: Global, bytes: &[u8]) -> Result<Vec<String>> {
    let environment = environment(alloc, "A=there; K=there; n=there")?;
    let mut entries = Iter::new(alloc, Bytes::new(bytes))?;
    Ok(items(alloc, &mut entries, &environment)?)
}

// Adds that what is listed of the bytes is listed as itself. Nothing is listed of pairs with a NUL.
fn push_listings(answers: &mut Vec<Comparison>, bytes: &[u8]) -> Result<()> {
    let alloc = *answers.allocator();
    let first = listing(alloc, Bytes::new(bytes), Dialect::V15)?;
    if let [_, output] = first.as_slice() {
        let second = listing(alloc, Bytes::new(output.as_bytes()), Dialect::V15)?;
        push_compared(answers, "listing", "of itself", first, second)?;
    }
    Ok(())
}

/// Plays a row of kind `written`.
pub fn play_written(answers: &mut Vec<Comparison>, fields: &[&str]) -> Result<()> {
    let alloc = *answers.allocator();
    let [pairs_field, bytes] = fields else {
        return refuse_count(fields, 2);
    };
    let output = written_pairs(alloc, pairs_field)?;
    let got = read_back(alloc, &output)?;
    push_answer(answers, "pairs", "read back", pairs_field, got)?;
    push_listings(answers, &output)?;
    let got = vec![in alloc; String::from_utf8(output)?]?;
    push_answer(answers, "pairs", "written", bytes, got)
}

/// Plays a row of kind `pair`.
pub fn play_pair(answers: &mut Vec<Comparison>, fields: &[&str]) -> Result<()> {
    let alloc = *answers.allocator();
    let [pair_field, steps, answer] = fields else {
        return refuse_count(fields, 3);
    };
    let (key, value) = pair(alloc, pair_field)?;
    let mut writer = Plain::new(PlayedWriter::new(alloc, writer::steps(alloc, steps)?));
    let answered = write_pair(alloc, &mut writer, key.as_str(), value.as_str())?;
    let got = written(alloc, &answered, writer.into_inner().into_taken())?;
    push_answer(answers, "pair", "written", answer, got)
}

/// Plays a row of kind `writes`.
pub fn play_writes(answers: &mut Vec<Comparison>, fields: &[&str]) -> Result<()> {
    let alloc = *answers.allocator();
    let [pair_field, steps, writes] = fields else {
        return refuse_count(fields, 3);
    };
    let (key, value) = pair(alloc, pair_field)?;
    let played = PlayedWriter::new(alloc, writer::steps(alloc, steps)?);
    let mut telling = Telling::new(alloc, Plain::new(played));
    let _ = write_pair(alloc, &mut telling, key.as_str(), value.as_str())?;
    let got = spelled(alloc, telling.into_calls())?;
    push_answer(answers, "writes", "of a pair", writes, got)
}

// What `list_with` answers and writes of these steps to a writer of those.
fn list_to(
    alloc: Global,
    dialect: Dialect,
    reader: PlayedReader<'_>,
    steps: &str,
) -> Result<Vec<String>> {
    let mut writer = Plain::new(PlayedWriter::new(alloc, writer::steps(alloc, steps)?));
    let answer = dotenvy::list_with(alloc, reader, &mut writer, dialect);
    written(alloc, &answer, writer.into_inner().into_taken())
}

/// Plays a row of kind `list`.
pub fn play_list(answers: &mut Vec<Comparison>, fields: &[&str]) -> Result<()> {
    let alloc = *answers.allocator();
    let [dialect_field, reader_steps, writer_steps, answer] = fields else {
        return refuse_count(fields, 4);
    };
    let steps = reader::steps(alloc, reader_steps)?;
    let dialect = dialect(dialect_field)?;
    for (cut, way) in CUTS {
        let got = list_to(alloc, dialect, PlayedReader::new(&steps, cut), writer_steps)?;
        push_answer(answers, "list", way, answer, got)?;
    }
    Ok(())
}
