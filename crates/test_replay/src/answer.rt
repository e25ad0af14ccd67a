//! What a row has of its answers, beside what was answered.

use anyhow::Result;
use std::alloc::AllocError;
use test_comparison::Comparison;
use test_support::notation::texts;

/// Whether a row asks for an answer: not, where its field is `*`.
pub fn is_asked(field: &str) -> bool {
    field != "*"
}

/// Adds an answer where the row asks for it: the texts that its field stands for are wanted.
pub fn push_answer(
    answers: &mut Vec<Comparison>,
    what: &'static str,
    way: &'static str,
    field: &str,
    got: Vec<String>,
) -> Result<()> {
    if is_asked(field) {
        let wanted = texts(*answers.allocator(), field)?;
        push_compared(answers, what, way, wanted, got)?;
    }
    Ok(())
}

/// Adds an answer, and the texts that are wanted.
pub fn push_compared(
    answers: &mut Vec<Comparison>,
    what: &'static str,
    way: &'static str,
    wanted: Vec<String>,
    got: Vec<String>,
) -> std::result::Result<(), AllocError> {
    answers.push(Comparison {
        what,
        way,
        wanted,
        got,
    })?;
    Ok(())
}

/// Adds what was got before a refusal: of the texts that the field stands for, the first ones are wanted.
pub fn push_front(
    answers: &mut Vec<Comparison>,
    what: &'static str,
    field: &str,
    got: Vec<String>,
) -> Result<()> {
    let mut wanted = texts(*answers.allocator(), field)?;
    wanted.truncate(got.len());
    push_compared(answers, what, "before a refusal", wanted, got)?;
    Ok(())
}

/// Adds the states that refusals left: those that the fields stand for are wanted, in this order.
pub fn push_states(
    answers: &mut Vec<Comparison>,
    what: &'static str,
    states: &[&str],
    met: Vec<String>,
) -> Result<()> {
    let alloc = *answers.allocator();
    let mut wanted = Vec::new(alloc);
    for state in states {
        wanted.push(texts(alloc, state)?.join(alloc, "; ")?)?;
    }
    push_compared(answers, what, "left by refusals", wanted, met)?;
    Ok(())
}
