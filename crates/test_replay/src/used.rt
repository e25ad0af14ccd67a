//! Rows of kind `used`: items are taken of an iterator, and then what is left of it is loaded.

use crate::answer::push_answer;
use crate::file::{CUTS, dialect, environment, load_or_override};
use crate::row::refuse_count;
use anyhow::Result;
use dotenvy::{Dialect, Iter};
use std::alloc::Global;
use test_comparison::Comparison;
use test_support::answers::{loaded, next_item};
use test_support::reader::{Cut, PlayedReader, Step, steps};

/// The items that are taken under this environment, and `none` where there is none.
pub fn take_items(
    alloc: Global,
    entries: &mut Iter<PlayedReader<'_>>,
    count: usize,
    under: &str,
) -> Result<Vec<String>> {
    let under = environment(alloc, under)?;
    let mut items = Vec::new(alloc);
    for _ in 0..count {
        items.push(match next_item(alloc, entries, &under)? {
            Some(item) => item,
            None => String::from_str(alloc, "none")?,
        })?;
    }
    Ok(items)
}

// An iterator that was used.
#[derive(Drop)]
struct Used<'a> {
    dialect: Dialect,
    taken: usize,
    under: &'a str,
    steps: Vec<Step>,
    into: &'a str,
}

// What the items and the load answered.
#[derive(Drop)]
struct Got {
    items: Vec<String>,
    load: Vec<String>,
}

impl Used<'_> {
    // What a load of the rest answers and leaves.
    fn load(
        &self,
        alloc: Global,
        entries: Iter<PlayedReader<'_>>,
        replaces: bool,
    ) -> Result<Vec<String>> {
        let mut into = environment(alloc, self.into)?;
        let answer = load_or_override(entries, &mut into, replaces);
        Ok(loaded(alloc, &answer, &into)?)
    }

    fn play(&self, alloc: Global, cut: Cut, replaces: bool) -> Result<Got> {
        let reader = PlayedReader::new(&self.steps, cut);
        let mut entries = Iter::with_dialect(alloc, reader, self.dialect)?;
        let items = take_items(alloc, &mut entries, self.taken, self.under)?;
        Ok(Got {
            items,
            load: self.load(alloc, entries, replaces)?,
        })
    }

    // Adds what the items and both loads answer where the bytes are cut so.
    fn compare(
        &self,
        answers: &mut Vec<Comparison>,
        (cut, way): (Cut, &'static str),
        items: &str,
        [load, load_override]: [&str; 2],
    ) -> Result<()> {
        let alloc = *answers.allocator();
        let kept = self.play(alloc, cut, false)?;
        push_answer(answers, "items", way, items, kept.items)?;
        push_answer(answers, "load", way, load, kept.load)?;
        let replaced = self.play(alloc, cut, true)?;
        push_answer(answers, "items", way, items, replaced.items)?;
        push_answer(answers, "load_override", way, load_override, replaced.load)
    }
}

/// Plays a row, and adds its answers.
pub fn play(answers: &mut Vec<Comparison>, fields: &[&str]) -> Result<()> {
    let alloc = *answers.allocator();
    let [
        dialect_field,
        taken,
        under,
        steps_field,
        items,
        into,
        load,
        load_override,
    ] = fields
    else {
        return refuse_count(fields, 8);
    };
    let used = Used {
        dialect: dialect(dialect_field)?,
        taken: taken.parse()?,
        under,
        steps: steps(alloc, steps_field)?,
        into,
    };
    for cut in CUTS {
        used.compare(answers, cut, items, [load, load_override])?;
    }
    Ok(())
}
