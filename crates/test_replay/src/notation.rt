//! Rows of the kinds `bytes` and `steps`: what the notation of rows stands for, and what played readers give.

use crate::answer::push_answer;
use crate::row::refuse_count;
use anyhow::Result;
use dotenvy::Source;
use std::alloc::{AllocError, Global};
use test_comparison::Comparison;
use test_support::notation::{bytes, list};
use test_support::reader::{Cut, PlayedReader, Step, steps};
use test_support::telling::{Telling, spelled};

// Two hex digits a byte.
fn hex(alloc: Global, bytes: &[u8]) -> std::result::Result<String, AllocError> {
    let mut hex = String::new(alloc);
    for byte in bytes {
        hex.push_str(format!(in alloc; "{byte:02x}")?.as_str())?;
    }
    Ok(hex)
}

/// Plays a row of kind `bytes`.
pub fn play_bytes(answers: &mut Vec<Comparison>, fields: &[&str]) -> Result<()> {
    let alloc = *answers.allocator();
    let [texts, wanted] = fields else {
        return refuse_count(fields, 2);
    };
    let mut got = Vec::new(alloc);
    for written in list(alloc, texts)? {
        got.push(hex(alloc, &bytes(alloc, written)?)?)?;
    }
    push_answer(answers, "texts", "as bytes", wanted, got)
}

// The first seven reads of two bytes each.
fn reads(alloc: Global, steps: &[Step], cut: Cut) -> Result<Vec<String>> {
    let mut telling = Telling::new(alloc, PlayedReader::new(steps, cut));
    for _ in 0..7u8 {
        let _ = telling.read_some(&mut [b'-'; 2]);
    }
    spelled(alloc, telling.into_calls())
}

/// Plays a row of kind `steps`.
pub fn play_steps(answers: &mut Vec<Comparison>, fields: &[&str]) -> Result<()> {
    let alloc = *answers.allocator();
    let [steps_field, whole, by_byte, interrupted] = fields else {
        return refuse_count(fields, 4);
    };
    let steps = steps(alloc, steps_field)?;
    for (cut, way, wanted) in [
        (Cut::Whole, "in whole reads", whole),
        (Cut::ByByte, "one byte a read", by_byte),
        (Cut::Interrupted, "with interruptions", interrupted),
    ] {
        push_answer(answers, "reads", way, wanted, reads(alloc, &steps, cut)?)?;
    }
    Ok(())
}
