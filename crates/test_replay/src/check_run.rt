//! Rows of the kinds `check_run`, `check_input` and `refused_check_run`: what the program dotenvy_check does of its
//! words.

use crate::answer::{push_answer, push_compared};
use crate::refused::MOST_REQUESTS;
use crate::refused_words::copies;
use crate::row::refuse_count;
use crate::scene::Scene;
use crate::words::words;
use anyhow::{Result, bail};
use dotenvy::Plain;
use dotenvy_checker::failure::Failure;
use dotenvy_checker::run::run;
use std::alloc::{Allocator, Global};
use test_comparison::Comparison;
use test_support::notation::texts;
use test_support::reader::{Cut, PlayedReader};
use test_support::writer::PlayedWriter;
use test_support::{Rationed, reader, writer};

// The status or the failure, and what was written, if anything was.
fn told<A: Allocator>(
    alloc: Global,
    answered: &std::result::Result<u8, Failure<A>>,
    written: Vec<u8>,
) -> Result<Vec<String>> {
    let mut texts = vec![in alloc;
        match answered {
            Ok(status) => format!(in alloc; "status {status}")?,
            Err(failure) => failure.to_string(alloc)?,
        },
    ]?;
    if !written.is_empty() {
        texts.push(String::from_utf8(written)?)?;
    }
    Ok(texts)
}

// Plays a row with these steps of standard input and of the output.
fn play_with(
    answers: &mut Vec<Comparison>,
    scene: &mut Scene,
    input: &str,
    output: &str,
    fields: [&str; 4],
) -> Result<()> {
    let [steps, words_field, wanted, notes] = fields;
    let alloc = *answers.allocator();
    scene.set_up(steps)?;
    let words = words(alloc, scene.placed(words_field)?.as_str())?;
    let input = reader::steps(alloc, input)?;
    let mut reader = PlayedReader::new(&input, Cut::Whole);
    let mut writer = Plain::new(PlayedWriter::new(alloc, writer::steps(alloc, output)?));
    let system = &scene.system;
    let answered = run(&system, alloc, &words, &mut reader, &mut writer);
    let got = told(alloc, &answered, writer.into_inner().into_taken())?;
    let wanted = scene.placed(wanted)?;
    push_answer(answers, "run", "answered", wanted.as_str(), got)?;
    let noted = scene.system.take_notes();
    push_answer(answers, "run", "opened", notes, scene.all_below(&noted)?)
}

/// Plays a row of kind `check_run`: standard input is empty.
pub fn play(answers: &mut Vec<Comparison>, scene: &mut Scene, fields: &[&str]) -> Result<()> {
    let [steps, words_field, output, wanted, notes] = fields else {
        return refuse_count(fields, 5);
    };
    play_with(
        answers,
        scene,
        "",
        output,
        [*steps, *words_field, *wanted, *notes],
    )
}

/// Plays a row of kind `check_input`.
pub fn play_input(answers: &mut Vec<Comparison>, scene: &mut Scene, fields: &[&str]) -> Result<()> {
    let [steps, words_field, input, output, wanted, notes] = fields else {
        return refuse_count(fields, 6);
    };
    play_with(
        answers,
        scene,
        input,
        output,
        [*steps, *words_field, *wanted, *notes],
    )
}

// What a run answers and writes whose memory is of this allocator.
fn told_with<'r>(
    alloc: Global,
    scene: &Scene,
    ration: &'r Rationed<Global>,
    words: &[String<&'r Rationed<Global>>],
) -> Result<String> {
    let system = (&scene.system, ration);
    let mut writer = Plain::new(PlayedWriter::new(alloc, Vec::new(alloc)));
    let mut reader = PlayedReader::new(&[], Cut::Whole);
    let answered = run(&system, alloc, words, &mut reader, &mut writer);
    let texts = told(alloc, &answered, writer.into_inner().into_taken())?;
    Ok(texts.join(alloc, "; ")?)
}

// The same with the request of this number refused, and whether there was such a request.
fn told_at_refusal(
    alloc: Global,
    scene: &Scene,
    words: &[String],
    number: u64,
) -> Result<(String, bool)> {
    let plenty = Rationed::refusing(alloc, u64::MAX);
    let ration = Rationed::refusing(alloc, number);
    let copies = copies(alloc, &plenty, words)?;
    let text = told_with(alloc, scene, &ration, &copies)?;
    Ok((text, ration.has_refused()))
}

// Refuses each request in turn, up to a run without a refusal. Of equal texts one after another there is one.
fn told_in_turn(alloc: Global, scene: &Scene, words: &[String]) -> Result<Vec<String>> {
    let mut met: Vec<String> = Vec::new(alloc);
    for number in 1..MOST_REQUESTS {
        let (text, is_refused) = told_at_refusal(alloc, scene, words, number)?;
        if !is_refused {
            met.push(text)?;
            return Ok(met);
        }
        if met.last() != Some(&text) {
            met.push(text)?;
        }
    }
    bail!("each run met a refusal")
}

/// Plays a row of kind `refused_check_run`.
pub fn play_refused(
    answers: &mut Vec<Comparison>,
    scene: &mut Scene,
    fields: &[&str],
) -> Result<()> {
    let [steps, words_field, wanted @ ..] = fields else {
        bail!("{} fields in place of 3 and more", fields.len());
    };
    let alloc = *answers.allocator();
    scene.set_up(steps)?;
    let words = words(alloc, scene.placed(words_field)?.as_str())?;
    let met = told_in_turn(alloc, scene, &words)?;
    let mut wanted_texts = Vec::new(alloc);
    for field in wanted {
        wanted_texts.push(joined(alloc, scene.placed(field)?.as_str())?)?;
    }
    push_compared(answers, "run", "at refusals and in all", wanted_texts, met)?;
    Ok(())
}

// The texts that a field stands for, as one.
fn joined(alloc: Global, field: &str) -> Result<String> {
    Ok(texts(alloc, field)?.join(alloc, "; ")?)
}
