//! Words of the command line as rows write them, and what they ask for.

use anyhow::{Context, Result};
use dotenvy::Dialect;
use dotenvy_command::command_line::CommandLine;
use dotenvy_command::failure::Usage;
use std::alloc::{AllocError, Allocator, Global};
use test_support::notation::text;

/// The words of a field such as `[sh][-c]`.
pub fn words(alloc: Global, field: &str) -> Result<Vec<String>> {
    let mut words = Vec::new(alloc);
    for word in field.split_terminator(']') {
        let word = word.strip_prefix('[').context("a word without `[`")?;
        words.push(text(alloc, word)?)?;
    }
    Ok(words)
}

// A text such as `files [a][b]` of these words, or `no files`.
fn named<A: Allocator>(
    alloc: Global,
    what: &str,
    words: &[String<A>],
) -> std::result::Result<String, AllocError> {
    if words.is_empty() {
        return format!(in alloc; "no {what}");
    }
    let mut text = format!(in alloc; "{what} ")?;
    for word in words {
        write!(text, "[{word}]")?;
    }
    Ok(text)
}

/// What words ask for: `v15` or `next`, with `list` before it where that is set, the files and the command. Or the text
/// of their refusal.
pub fn asked<A: Allocator>(
    alloc: Global,
    answered: std::result::Result<CommandLine<A>, Usage<A>>,
) -> Result<Vec<String>> {
    let line = match answered {
        Ok(line) => line,
        Err(usage) => return Ok(vec![in alloc; usage.to_string(alloc)?]?),
    };
    let what = match (line.list, line.dialect) {
        (false, Dialect::V15) => "v15",
        (false, Dialect::Next) => "next",
        (true, Dialect::V15) => "list v15",
        (true, Dialect::Next) => "list next",
    };
    let mut texts = vec![in alloc; String::from_str(alloc, what)?]?;
    texts.push(named(alloc, "files", line.files.as_slice())?)?;
    texts.push(named(alloc, "command", line.command.as_slice())?)?;
    Ok(texts)
}
