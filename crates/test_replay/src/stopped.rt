//! Rows of kind `stopped`: items are taken of an iterator, one call loads what is left up to a fault, and then come the
//! items after that, under another environment.

use crate::answer::push_answer;
use crate::file::{CUTS, dialect, environment};
use crate::rest::load_rest;
use crate::row::refuse_count;
use crate::used::take_items;
use anyhow::Result;
use dotenvy::{Dialect, Iter};
use std::alloc::Global;
use test_comparison::Comparison;
use test_support::answers::{items, loaded};
use test_support::reader::{Cut, PlayedReader, Step, steps};

// An iterator that is kept, and the environments of its calls.
#[derive(Drop)]
struct Stopped<'a> {
    dialect: Dialect,
    taken: usize,
    under: &'a str,
    steps: Vec<Step>,
    into: &'a str,
    other: &'a str,
}

// What the calls answered.
#[derive(Drop)]
struct Got {
    items: Vec<String>,
    load: Vec<String>,
    left: Vec<String>,
}

impl Stopped<'_> {
    fn play(&self, alloc: Global, cut: Cut, replaces: bool) -> Result<Got> {
        let reader = PlayedReader::new(&self.steps, cut);
        let mut entries = Iter::with_dialect(alloc, reader, self.dialect)?;
        let taken = take_items(alloc, &mut entries, self.taken, self.under)?;
        let mut into = environment(alloc, self.into)?;
        let answer = load_rest(&mut entries, &mut into, replaces);
        let other = environment(alloc, self.other)?;
        Ok(Got {
            items: taken,
            load: loaded(alloc, &answer, &into)?,
            left: items(alloc, &mut entries, &other)?,
        })
    }

    // Adds what the calls answer where the bytes are cut so.
    fn compare(
        &self,
        answers: &mut Vec<Comparison>,
        (cut, way): (Cut, &'static str),
        items: &str,
        [load, left, load_override, left_override]: [&str; 4],
    ) -> Result<()> {
        let alloc = *answers.allocator();
        let kept = self.play(alloc, cut, false)?;
        push_answer(answers, "items", way, items, kept.items)?;
        push_answer(answers, "load_rest", way, load, kept.load)?;
        push_answer(answers, "items after load_rest", way, left, kept.left)?;
        let replaced = self.play(alloc, cut, true)?;
        push_answer(
            answers,
            "load_rest_override",
            way,
            load_override,
            replaced.load,
        )?;
        push_answer(
            answers,
            "items after load_rest_override",
            way,
            left_override,
            replaced.left,
        )
    }
}

/// Plays a row, and adds its answers.
pub fn play(answers: &mut Vec<Comparison>, fields: &[&str]) -> Result<()> {
    let alloc = *answers.allocator();
    let [
        dialect_field,
        taken,
        under,
        steps_field,
        items,
        into,
        other,
        load,
        left,
        load_override,
        left_override,
    ] = fields
    else {
        return refuse_count(fields, 11);
    };
    let stopped = Stopped {
        dialect: dialect(dialect_field)?,
        taken: taken.parse()?,
        under,
        steps: steps(alloc, steps_field)?,
        into,
        other,
    };
    for cut in CUTS {
        stopped.compare(
            answers,
            cut,
            items,
            [load, left, load_override, left_override],
        )?;
    }
    Ok(())
}
