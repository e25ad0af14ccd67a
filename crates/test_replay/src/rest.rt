//! Rows of kind `rest`: a file is loaded by an iterator that is kept, call after call, to its end.

ghost use Rattle.std.specs.Prelude.{◌<◌, OnErr};
ghost use Rattle.dotenvy.specs.Iter.{items_measure};

use crate::answer::push_answer;
use crate::file::{CUTS, dialect, environment};
use crate::row::refuse_count;
use anyhow::Result;
use dotenvy::{Dialect, Environment, Iter};
use std::alloc::Global;
use test_comparison::Comparison;
use test_support::answers::{fault, pairs};
use test_support::reader::{Cut, PlayedReader, Step, steps};

// A file, and the environment that it is loaded into.
#[derive(Drop)]
struct Rest<'a> {
    dialect: Dialect,
    environment: &'a str,
    steps: Vec<Step>,
}

// The faults of the calls, each with its lines, and what all of them left.
#[derive(Drop)]
struct Got {
    faults: Vec<String>,
    loaded: Vec<String>,
}

/// One more load of what is left.
pub fn load_rest(
    file: &mut Iter<PlayedReader<'_>>,
    into: &mut Environment,
    replaces: bool,
) -> dotenvy::Result<()>
    ensures { OnErr result (items_measure file.new < items_measure file.old) }
{
    if replaces {
        file.load_rest_override(into)
    } else {
        file.load_rest(into)
    }
}

impl Rest<'_> {
    fn play(&self, alloc: Global, cut: Cut, replaces: bool) -> Result<Got> {
        let reader = PlayedReader::new(&self.steps, cut);
        let mut file = Iter::with_dialect(alloc, reader, self.dialect)?;
        let mut into = environment(alloc, self.environment)?;
        let mut faults = Vec::new(alloc);
        'calls: while let Err(error) = load_rest(&mut file, &mut into, replaces) {
            let (first, last) = (file.first_line(), file.last_line());
            let text = fault(alloc, &error)?;
            faults.push(format!(in alloc; "{first}-{last} {text}")?)?;
        }
        Ok(Got {
            faults,
            loaded: pairs(alloc, &into)?,
        })
    }
}

/// Plays a row, and adds its answers.
pub fn play(answers: &mut Vec<Comparison>, fields: &[&str]) -> Result<()> {
    let alloc = *answers.allocator();
    let [
        dialect_field,
        environment,
        steps_field,
        kept_faults,
        kept,
        replaced_faults,
        replaced,
    ] = fields
    else {
        return refuse_count(fields, 7);
    };
    let rest = Rest {
        dialect: dialect(dialect_field)?,
        environment,
        steps: steps(alloc, steps_field)?,
    };
    for (cut, way) in CUTS {
        let got = rest.play(alloc, cut, false)?;
        push_answer(answers, "faults of load_rest", way, kept_faults, got.faults)?;
        push_answer(answers, "load_rest", way, kept, got.loaded)?;
        let got = rest.play(alloc, cut, true)?;
        push_answer(
            answers,
            "faults of load_rest_override",
            way,
            replaced_faults,
            got.faults,
        )?;
        push_answer(answers, "load_rest_override", way, replaced, got.loaded)?;
    }
    Ok(())
}
