//! Rows of kind `layers`: readers are added one after another, and names are required of what they make.

use crate::answer::push_answer;
use crate::file::{CUTS, environment};
use crate::row::refuse_count;
use anyhow::{Result, bail};
use env_layers::{Layers, Missing, Mode};
use std::alloc::{AllocError, Allocator, Global};
use test_comparison::Comparison;
use test_support::answers::{answer, pairs};
use test_support::notation::{bytes, kind, list, texts};
use test_support::reader::{Cut, PlayedReader, Step};

// The mode of `keep A=1` or of `keep failing TimedOut A=1`, and the steps of its reader.
fn layer(alloc: Global, written: &str) -> Result<(Mode, Vec<Step>)> {
    let (mode, rest) = written.split_once(' ').unwrap_or((written, ""));
    let mode = match mode {
        "keep" => Mode::Keep,
        "override" => Mode::Override,
        _ => bail!("no mode is called {mode}"),
    };
    let mut steps = Vec::new(alloc);
    match rest.strip_prefix("failing ") {
        Some(failing) => {
            let (name, given) = failing.split_once(' ').unwrap_or((failing, ""));
            if !given.is_empty() {
                steps.push(Step::Give(bytes(alloc, given)?))?;
            }
            steps.push(Step::Fail(kind(name)?))?;
        }
        None => steps.push(Step::Give(bytes(alloc, rest)?))?,
    }
    Ok((mode, steps))
}

// What is answered to each layer.
fn added(alloc: Global, layers: &mut Layers, field: &str, cut: Cut) -> Result<Vec<String>> {
    let mut texts = Vec::new(alloc);
    for written in list(alloc, field)? {
        let (mode, steps) = layer(alloc, written)?;
        let answered = layers.add(alloc, PlayedReader::new(&steps, cut), mode);
        texts.push(answer(alloc, &answered)?)?;
    }
    Ok(texts)
}

/// Adds what is answered to required names: `ok`, `memory`, or `missing` and the names.
pub fn push_required<A: Allocator>(
    texts: &mut Vec<String>,
    answered: &std::result::Result<(), Missing<A>>,
) -> std::result::Result<(), AllocError> {
    let alloc = *texts.allocator();
    let word = match answered {
        Ok(()) => "ok",
        Err(Missing::Memory(_)) => "memory",
        Err(Missing::Names(_)) => "missing",
    };
    texts.push(String::from_str(alloc, word)?)?;
    if let Err(Missing::Names(absent)) = answered {
        for name in absent {
            texts.push(String::from_str(alloc, name.as_str())?)?;
        }
    }
    Ok(())
}

fn required(alloc: Global, layers: &Layers, field: &str) -> Result<Vec<String>> {
    let names = texts(alloc, field)?;
    let names: Vec<&str> = names.iter().map(String::as_str).collect(alloc)?;
    let mut texts = Vec::new(alloc);
    push_required(&mut texts, &layers.require(alloc, &names))?;
    Ok(texts)
}

/// Plays a row, and adds its answers.
pub fn play(answers: &mut Vec<Comparison>, fields: &[&str]) -> Result<()> {
    for cut in CUTS {
        play_cut(answers, fields, cut)?;
    }
    Ok(())
}

// Plays a row where the bytes of each reader are cut so.
fn play_cut(
    answers: &mut Vec<Comparison>,
    fields: &[&str],
    (cut, way): (Cut, &'static str),
) -> Result<()> {
    let alloc = *answers.allocator();
    let [before, added_field, answered, after, names, required_field] = fields else {
        return refuse_count(fields, 6);
    };
    let mut layers = Layers::new(environment(alloc, before)?);
    let got = added(alloc, &mut layers, added_field, cut)?;
    push_answer(answers, "layers", way, answered, got)?;
    let got = required(alloc, &layers, names)?;
    push_answer(answers, "required", way, required_field, got)?;
    let got = pairs(alloc, &layers.into_environment())?;
    push_answer(answers, "environment", way, after, got)
}
