//! Rows of the kinds `reads` and `first`: which reads are made for items, for the first of them, and by each call that
//! loads or lists a reader.

use crate::answer::{is_asked, push_answer};
use crate::file::dialect;
use crate::reader_call::{FIRST_LISTINGS, FIRST_LOADS, LISTINGS, LOADS, ReaderCall};
use crate::row::refuse_count;
use anyhow::{Context, Result, bail};
use dotenvy::{Dialect, Environment, Iter, Plain, Source};
use std::alloc::Global;
use test_comparison::Comparison;
use test_support::answers::{items, next_item};
use test_support::reader::{Cut, PlayedReader, Step, steps};
use test_support::system::PlayedSystem;
use test_support::telling::{Telling, spelled};
use test_support::writer;
use test_support::writer::PlayedWriter;

// The steps of a writer, and what the reads of a call are called that writes to it.
type Writer = (&'static str, &'static str);

// Takes all that it is given. A load writes nothing.
const TAKING: Writer = ("", "reads of");

// Fail at once, after a byte, and by a write that takes nothing.
const FAILING: [Writer; 3] = [
    ("fail BrokenPipe", "reads before a write that fails, of"),
    (
        "take 1; fail BrokenPipe",
        "reads before a write that fails behind a byte, of",
    ),
    ("take 0", "reads before a write that takes nothing, of"),
];

// Sees that three items more and a load give nothing.
fn see_no_more<S: Source + Drop>(alloc: Global, mut entries: Iter<S>) -> Result<()> {
    let mut environment = Environment::new(alloc);
    for _ in 0..3u8 {
        if let Some(item) = next_item(alloc, &mut entries, &environment)? {
            bail!("an item after the end: {item}");
        }
    }
    entries.load(&mut environment)?;
    if !environment.is_empty() {
        bail!("a name after the end");
    }
    Ok(())
}

// The reads for items up to the end or the last fault, for three more, and for a load of what is left, which is
// nothing.
fn of_items(alloc: Global, dialect: Dialect, steps: &[Step]) -> Result<Vec<String>> {
    let mut telling = Telling::new(alloc, PlayedReader::new(steps, Cut::Whole));
    {
        let mut entries = Iter::with_dialect(alloc, &mut telling, dialect)?;
        items(alloc, &mut entries, &Environment::new(alloc))?;
        see_no_more(alloc, entries)?;
    }
    spelled(alloc, telling.into_calls())
}

// The first item, if there is one.
fn first_of<S: Source + Drop>(alloc: Global, mut entries: Iter<S>) -> Result<Vec<String>> {
    let first = next_item(alloc, &mut entries, &Environment::new(alloc))?;
    Ok(first.into_iter().collect(alloc)?)
}

// What the first item is, and the reads for it.
fn of_first(alloc: Global, dialect: Dialect, steps: &[Step]) -> Result<(Vec<String>, Vec<String>)> {
    let mut telling = Telling::new(alloc, PlayedReader::new(steps, Cut::Whole));
    let items = first_of(alloc, Iter::with_dialect(alloc, &mut telling, dialect)?)?;
    Ok((items, spelled(alloc, telling.into_calls())?))
}

/// Plays a row of kind `first`.
pub fn play_first(answers: &mut Vec<Comparison>, fields: &[&str]) -> Result<()> {
    let alloc = *answers.allocator();
    let [dialect_field, steps_field, items_field, reads_field] = fields else {
        return refuse_count(fields, 4);
    };
    let steps = steps(alloc, steps_field)?;
    let (items, reads) = of_first(alloc, dialect(dialect_field)?, &steps)?;
    push_answer(answers, "item", "first", items_field, items)?;
    push_answer(answers, "reads", "of the first item", reads_field, reads)
}

/// Plays a row of kind `reads`.
pub fn play(answers: &mut Vec<Comparison>, rt: HostRuntime, fields: &[&str]) -> Result<()> {
    let alloc = *answers.allocator();
    let [dialect_field, steps_field, items, calls] = fields else {
        return refuse_count(fields, 4);
    };
    let dialect = dialect(dialect_field)?;
    let steps = steps(alloc, steps_field)?;
    if is_asked(items) {
        let got = of_items(alloc, dialect, &steps)?;
        push_answer(answers, "reads", "of items", items, got)?;
    }
    if is_asked(calls) {
        let asked = Asked {
            rt,
            dialect,
            steps,
            wanted: calls,
        };
        asked.push_all(answers)?;
    }
    Ok(())
}

// The reads that are wanted of each call.
#[derive(Drop)]
struct Asked<'a> {
    rt: HostRuntime,
    dialect: Dialect,
    steps: Vec<Step>,
    wanted: &'a str,
}

impl Asked<'_> {
    // Adds the reads of each call that loads or lists. A listing is written after all reads, so a write that fails
    // changes none.
    fn push_all(&self, answers: &mut Vec<Comparison>) -> Result<()> {
        self.push_of(answers, TAKING, &LOADS)?;
        if self.dialect == Dialect::V15 {
            self.push_of(answers, TAKING, &FIRST_LOADS)?;
        }
        self.push_listings(answers, TAKING)?;
        for writer in FAILING {
            self.push_listings(answers, writer)?;
        }
        Ok(())
    }

    fn push_listings(&self, answers: &mut Vec<Comparison>, writer: Writer) -> Result<()> {
        self.push_of(answers, writer, &LISTINGS)?;
        if self.dialect == Dialect::V15 {
            self.push_of(answers, writer, &FIRST_LISTINGS)?;
        }
        Ok(())
    }

    // Adds the reads of the calls of these names.
    fn push_of(
        &self,
        answers: &mut Vec<Comparison>,
        (steps, what): Writer,
        names: &[&'static str],
    ) -> Result<()> {
        for name in names {
            let call = ReaderCall::named(name, self.dialect).context("no call")?;
            push_answer(answers, what, name, self.wanted, self.reads(call, steps)?)?;
        }
        Ok(())
    }

    // The reads of a call, which writes, if it does, to a writer of these steps.
    fn reads(&self, call: ReaderCall, writer: &str) -> Result<Vec<String>> {
        let alloc = self.rt.alloc();
        let mut telling = Telling::new(alloc, PlayedReader::new(&self.steps, Cut::Whole));
        let mut writer = Plain::new(PlayedWriter::new(alloc, writer::steps(alloc, writer)?));
        let _ = call.make(&PlayedSystem::new(self.rt), &mut telling, &mut writer);
        spelled(alloc, telling.into_calls())
    }
}
