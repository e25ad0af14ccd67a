//! Rows of the kinds `words` and `run`: what words of the command line ask for, and what the program does of them.

use crate::answer::push_answer;
use crate::row::refuse_count;
use crate::scene::Scene;
use anyhow::{Context, Result};
use dotenvy::{Dialect, Plain};
use dotenvy_command::command_line::command_line;
use dotenvy_command::failure::Failure;
use dotenvy_command::run::run;
use std::alloc::{AllocError, Global};
use test_comparison::Comparison;
use test_support::notation::text;
use test_support::reader::{Cut, PlayedReader};
use test_support::telling::{Telling, spelled};
use test_support::writer::PlayedWriter;
use test_support::{reader, writer};

// The words of a field such as `[sh][-c]`.
fn words(alloc: Global, field: &str) -> Result<Vec<String>> {
    let mut words = Vec::new(alloc);
    for word in field.split_terminator(']') {
        let word = word.strip_prefix('[').context("a word without `[`")?;
        words.push(text(alloc, word)?)?;
    }
    Ok(words)
}

// A text such as `files [a][b]` of these words, or `no files`.
fn named(alloc: Global, what: &str, words: &[String]) -> std::result::Result<String, AllocError> {
    if words.is_empty() {
        return format!(in alloc; "no {what}");
    }
    let mut text = format!(in alloc; "{what} ")?;
    for word in words {
        write!(text, "[{word}]")?;
    }
    Ok(text)
}

// What the words ask for: `v15` or `next`, with `list` before it where that is set, the files and the command. Or the
// text of their refusal.
fn asked(alloc: Global, words: &[String]) -> Result<Vec<String>> {
    let line = match command_line(alloc, words) {
        Ok(line) => line,
        Err(usage) => return Ok(vec![in alloc; usage.to_string(alloc)?]?),
    };
    let what = match (line.list, line.dialect) {
        (false, Dialect::V15) => "v15",
        (false, Dialect::Next) => "next",
        (true, Dialect::V15) => "list v15",
        (true, Dialect::Next) => "list next",
    };
    let mut texts = vec![in alloc; String::from_str(alloc, what)?]?;
    texts.push(named(alloc, "files", line.files.as_slice())?)?;
    texts.push(named(alloc, "command", line.command.as_slice())?)?;
    Ok(texts)
}

/// Plays a row of kind `words`.
pub fn play_words(answers: &mut Vec<Comparison>, fields: &[&str]) -> Result<()> {
    let alloc = *answers.allocator();
    let [words_field, wanted] = fields else {
        return refuse_count(fields, 2);
    };
    let words = words(alloc, words_field)?;
    let got = asked(alloc, words.as_slice())?;
    push_answer(answers, "words", "read", wanted, got)
}

// The status or the failure, and what was written, if anything was.
fn answer(
    alloc: Global,
    answered: std::result::Result<u8, Failure>,
    written: Vec<u8>,
) -> Result<Vec<String>> {
    let mut answer = vec![in alloc;
        match answered {
            Ok(status) => format!(in alloc; "status {status}")?,
            Err(failure) => failure.to_string(alloc)?,
        },
    ]?;
    if !written.is_empty() {
        answer.push(String::from_utf8(written)?)?;
    }
    Ok(answer)
}

/// Plays a row of kind `run`.
pub fn play_run(answers: &mut Vec<Comparison>, scene: &mut Scene, fields: &[&str]) -> Result<()> {
    let [steps, words_field, input, output, wanted, reads, notes] = fields else {
        return refuse_count(fields, 7);
    };
    let alloc = *answers.allocator();
    scene.set_up(steps)?;
    let words = words(alloc, scene.placed(words_field)?.as_str())?;
    let input = reader::steps(alloc, input)?;
    let mut reader = Telling::new(alloc, PlayedReader::new(&input, Cut::Whole));
    let mut writer = Plain::new(PlayedWriter::new(alloc, writer::steps(alloc, output)?));
    let answered = run(&scene.system, &words, &mut reader, &mut writer);
    let got = answer(alloc, answered, writer.into_inner().into_taken())?;
    push_answer(answers, "run", "answered", wanted, got)?;
    let got = spelled(alloc, reader.into_calls())?;
    push_answer(answers, "run", "read", reads, got)?;
    let noted = scene.system.take_notes();
    push_answer(
        answers,
        "run",
        "opened and started",
        notes,
        scene.all_below(&noted)?,
    )
}
