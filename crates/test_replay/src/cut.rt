//! Rows of the kinds `cut` and `cut_load`: files whose bytes are cut by a read in the midst of what belongs together.
//!
//! A read takes at most 8,192 bytes. A file is filled up with letters, so that the bytes under test are cut behind each
//! number of them.

use crate::answer::push_answer;
use anyhow::{Context, Result, bail};
use dotenvy::{Bytes, Environment, Iter, Source};
use std::alloc::{AllocError, Global};
use test_comparison::Comparison;
use test_support::answers;
use test_support::answers::{loaded, next_item};
use test_support::notation::bytes;
use test_support::reader::{Cut, PlayedReader, Step};

// Where the bytes are cut: where the first read ends, and a byte beside it.
const CUTS: [usize; 3] = [8_191, 8_192, 8_193];

// A file of a front, as many letters as there have to be so that the back begins at this byte, and the back.
#[derive(Drop)]
struct Filled {
    bytes: Vec<u8>,
    letters: usize,
}

fn fill_up(
    alloc: Global,
    front: &[u8],
    begin: usize,
    back: &[u8],
) -> std::result::Result<Filled, AllocError> {
    let letters = begin.saturating_sub(front.len());
    let mut bytes = Vec::new(alloc);
    bytes.extend_from_slice(front)?;
    bytes.resize(front.len().saturating_add(letters), b'a')?;
    bytes.extend_from_slice(back)?;
    Ok(Filled { bytes, letters })
}

// The field with the letters in place of `%@`.
fn with_letters(
    alloc: Global,
    field: &str,
    letters: usize,
) -> std::result::Result<String, AllocError> {
    field.replace(alloc, "%@", format!(in alloc; "%({letters}*a)")?.as_str())
}

fn items<R: Source + Drop>(alloc: Global, reader: R) -> Result<Vec<String>> {
    let mut entries = Iter::new(alloc, reader)?;
    Ok(answers::items(alloc, &mut entries, &Environment::new(alloc))?)
}

fn items_by_byte(alloc: Global, file: Vec<u8>) -> Result<Vec<String>> {
    let steps = vec![in alloc; Step::Give(file)]?;
    items(alloc, PlayedReader::new(&steps, Cut::ByByte))
}

/// Plays a row of kind `cut`.
pub fn play_items(answers: &mut Vec<Comparison>, fields: &[&str]) -> Result<()> {
    let alloc = *answers.allocator();
    let [front, back, wanted] = fields else {
        bail!("{} fields in place of 3", fields.len());
    };
    let front = bytes(alloc, front)?;
    let back = bytes(alloc, back)?;
    for cut in CUTS {
        for before in 0..=back.len() {
            let file = fill_up(alloc, &front, cut.saturating_sub(before), &back)?;
            push_items(answers, &file, wanted)?;
        }
    }
    push_items_by_byte(answers, fill_up(alloc, &front, 8_192, &back)?, wanted)
}

fn push_items(answers: &mut Vec<Comparison>, file: &Filled, wanted: &str) -> Result<()> {
    let alloc = *answers.allocator();
    let wanted = with_letters(alloc, wanted, file.letters)?;
    let got = items(alloc, Bytes::new(&file.bytes))?;
    push_answer(answers, "items", "of a cut", wanted.as_str(), got)
}

fn push_items_by_byte(answers: &mut Vec<Comparison>, file: Filled, wanted: &str) -> Result<()> {
    let alloc = *answers.allocator();
    let wanted = with_letters(alloc, wanted, file.letters)?;
    let got = items_by_byte(alloc, file.bytes)?;
    push_answer(answers, "items", "one byte a read", wanted.as_str(), got)
}

// What a load gives of the file behind its first item.
fn load_behind_an_item(alloc: Global, file: &[u8]) -> Result<Vec<String>> {
    let mut entries = Iter::new(alloc, Bytes::new(file))?;
    see_letters(alloc, &mut entries)?;
    let mut environment = Environment::new(alloc);
    let answer = entries.load(&mut environment);
    Ok(loaded(alloc, &answer, &environment)?)
}

// Sees that the first item has the letters.
fn see_letters(alloc: Global, entries: &mut Iter<Bytes<'_>>) -> Result<()> {
    let first = next_item(alloc, entries, &Environment::new(alloc))?.context("no item")?;
    if !first.starts_with("F=a") {
        bail!("another item: {first}");
    }
    Ok(())
}

/// Plays a row of kind `cut_load`.
pub fn play_load(answers: &mut Vec<Comparison>, fields: &[&str]) -> Result<()> {
    let alloc = *answers.allocator();
    let [back, wanted] = fields else {
        bail!("{} fields in place of 2", fields.len());
    };
    let mut line_end_and_back = vec![in alloc; b'\n']?;
    line_end_and_back.extend_from_slice(&bytes(alloc, back)?)?;
    for cut in CUTS {
        for before in 0..line_end_and_back.len() {
            let begin = cut.saturating_sub(before).saturating_sub(1);
            let file = fill_up(alloc, b"F=", begin, &line_end_and_back)?;
            let got = load_behind_an_item(alloc, &file.bytes)?;
            push_answer(answers, "load", "of a cut", wanted, got)?;
        }
    }
    Ok(())
}
