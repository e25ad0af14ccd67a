//! Rows of kind `file`: what a file gives in each way to read it.

use crate::answer::{is_asked, push_answer};
use crate::row::refuse_count;
use anyhow::{Result, bail};
use dotenvy::{
    Dialect, Environment, Iter, Plain, Source, from_read, from_read_iter, from_read_override, list,
    list_with,
};
use std::alloc::Global;
use test_comparison::Comparison;
use test_support::answers::{items, loaded, next_item, written};
use test_support::notation::pairs;
use test_support::reader::{Cut, PlayedReader, Step, steps};

/// Each way to cut the bytes of a file, and what it is called.
pub const CUTS: [(Cut, &str); 3] = [
    (Cut::Whole, "in whole reads"),
    (Cut::ByByte, "one byte a read"),
    (Cut::Interrupted, "with interruptions"),
];

/// The dialect of this name.
pub fn dialect(field: &str) -> Result<Dialect> {
    match field {
        "v15" => Ok(Dialect::V15),
        "next" => Ok(Dialect::Next),
        _ => bail!("no dialect is called {field}"),
    }
}

/// An environment of these names and values.
pub fn environment(alloc: Global, field: &str) -> Result<Environment> {
    Ok(Environment::from_pairs(alloc, pairs(alloc, field)?)?)
}

// A file, and the environment under which it is read. In the first dialect the calls that are given none are made in
// whole reads, and those that are given one otherwise.
#[derive(Drop)]
struct File<'a> {
    dialect: Dialect,
    environment: &'a str,
    steps: Vec<Step>,
}

impl File<'_> {
    fn open(&self, alloc: Global, cut: Cut) -> dotenvy::Result<Iter<PlayedReader<'_>>> {
        let reader = PlayedReader::new(&self.steps, cut);
        match (self.dialect, cut) {
            (Dialect::V15, Cut::Whole) => from_read_iter(alloc, reader),
            _ => Iter::with_dialect(alloc, reader, self.dialect),
        }
    }

    fn items(&self, alloc: Global, cut: Cut) -> Result<Vec<String>> {
        let environment = environment(alloc, self.environment)?;
        let mut entries = self.open(alloc, cut)?;
        let items = items(alloc, &mut entries, &environment)?;
        if let Some(item) = next_item(alloc, &mut entries, &environment)? {
            bail!("an item after the end: {item}");
        }
        Ok(items)
    }

    // What one of the loads answers and leaves.
    fn load(&self, alloc: Global, cut: Cut, replaces: bool) -> Result<Vec<String>> {
        let mut environment = environment(alloc, self.environment)?;
        let reader = PlayedReader::new(&self.steps, cut);
        let answer = match (self.dialect, cut, replaces) {
            (Dialect::V15, Cut::Whole, false) => from_read(alloc, reader, &mut environment),
            (Dialect::V15, Cut::Whole, true) => from_read_override(alloc, reader, &mut environment),
            _ => load_or_override(self.open(alloc, cut)?, &mut environment, replaces),
        };
        Ok(loaded(alloc, &answer, &environment)?)
    }

    fn listing(&self, alloc: Global, cut: Cut) -> Result<Vec<String>> {
        listing(alloc, PlayedReader::new(&self.steps, cut), self.dialect)
    }

    // Adds the items and the listing, where they are asked for.
    fn compare_items(
        &self,
        answers: &mut Vec<Comparison>,
        (cut, way): (Cut, &'static str),
        items: &str,
        listing: &str,
    ) -> Result<()> {
        let alloc = *answers.allocator();
        if is_asked(items) {
            push_answer(answers, "items", way, items, self.items(alloc, cut)?)?;
        }
        if is_asked(listing) {
            push_answer(answers, "listing", way, listing, self.listing(alloc, cut)?)?;
        }
        Ok(())
    }

    // Adds what both loads answer and leave, where it is asked for.
    fn compare_loads(
        &self,
        answers: &mut Vec<Comparison>,
        (cut, way): (Cut, &'static str),
        load: &str,
        load_override: &str,
    ) -> Result<()> {
        let alloc = *answers.allocator();
        for (what, field, replaces) in [
            ("load", load, false),
            ("load_override", load_override, true),
        ] {
            if is_asked(field) {
                push_answer(answers, what, way, field, self.load(alloc, cut, replaces)?)?;
            }
        }
        Ok(())
    }
}

/// Loads by `load_override` where values are to be replaced, and else by `load`.
pub fn load_or_override<S: Source + Drop>(
    entries: Iter<S>,
    environment: &mut Environment,
    replaces: bool,
) -> dotenvy::Result<()> {
    if replaces {
        entries.load_override(environment)
    } else {
        entries.load(environment)
    }
}

/// What `list` answers and writes of a reader, and `list_with` in the second dialect.
pub fn listing<R: Source + Drop>(
    alloc: Global,
    reader: R,
    dialect: Dialect,
) -> Result<Vec<String>> {
    let mut writer = Plain::new(Vec::new(alloc));
    let answer = match dialect {
        Dialect::V15 => list(alloc, reader, &mut writer),
        Dialect::Next => list_with(alloc, reader, &mut writer, dialect),
    };
    written(alloc, &answer, writer.into_inner())
}

/// Plays a row, and adds its answers.
pub fn play(answers: &mut Vec<Comparison>, fields: &[&str]) -> Result<()> {
    let alloc = *answers.allocator();
    let [
        dialect_field,
        environment,
        steps_field,
        items,
        load,
        load_override,
        listing,
    ] = fields
    else {
        return refuse_count(fields, 7);
    };
    let file = File {
        dialect: dialect(dialect_field)?,
        environment,
        steps: steps(alloc, steps_field)?,
    };
    for cut in CUTS {
        file.compare_items(answers, cut, items, listing)?;
        file.compare_loads(answers, cut, load, load_override)?;
    }
    Ok(())
}
