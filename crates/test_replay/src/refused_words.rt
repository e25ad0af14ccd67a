//! Rows of kind `refused_words`: what words of the command line ask for, each request for memory refused in turn.

use crate::answer::push_answer;
use crate::refused::MOST_REQUESTS;
use crate::row::refuse_count;
use crate::words::{asked, words};
use anyhow::{Result, bail};
use dotenvy_command::command_line::command_line;
use std::alloc::{AllocError, Allocator, Global};
use test_comparison::Comparison;
use test_support::Rationed;
use test_support::environment::copied;

/// Copies of the words in memory of this allocator.
pub fn copies<A: Allocator + Clone>(
    room: Global,
    alloc: A,
    words: &[String],
) -> std::result::Result<Vec<String<A>>, AllocError> {
    let mut copies = Vec::new(room);
    for word in words {
        copies.push(copied(&alloc, word.as_str())?)?;
    }
    Ok(copies)
}

// Adds what is answered where the request of this number is refused, and tells whether there was no such request.
fn is_done(
    answers: &mut Vec<Comparison>,
    words: &[String],
    wanted: &str,
    number: u64,
) -> Result<bool> {
    let alloc = *answers.allocator();
    let plenty = Rationed::refusing(alloc, u64::MAX);
    let ration = Rationed::refusing(alloc, number);
    let copies = copies(alloc, &plenty, words)?;
    let got = asked(alloc, command_line(&ration, &copies))?;
    if ration.has_refused() {
        push_answer(answers, "words", "at a refusal", "out of memory", got)?;
        return Ok(false);
    }
    push_answer(answers, "words", "in all", wanted, got)?;
    Ok(true)
}

/// Plays a row, and adds its answers.
pub fn play(answers: &mut Vec<Comparison>, fields: &[&str]) -> Result<()> {
    let [words_field, wanted] = fields else {
        return refuse_count(fields, 2);
    };
    let words = words(*answers.allocator(), words_field)?;
    for number in 1..MOST_REQUESTS {
        if is_done(answers, &words, wanted, number)? {
            return Ok(());
        }
    }
    bail!("each run met a refusal")
}
