//! Answers as texts of the notation (docs/ROWS.md, "Answers").

use anyhow::Result;
use dotenvy::{Environment, Error, Iter, Source};
use std::alloc::{AllocError, Allocator, Global};

/// A fault: `fault at 3: TEXT` of a line, `io TimedOut`, `nul KEY` of a value with a NUL, `memory`.
pub fn fault<A: Allocator>(
    alloc: Global,
    fault: &Error<A>,
) -> std::result::Result<String, AllocError> {
    match fault {
        Error::LineParse(text, index) => format!(in alloc; "fault at {index}: {text}"),
        Error::Io(fault) => format!(in alloc; "io {:?}", fault.kind()),
        Error::Nul(key) => format!(in alloc; "nul {key}"),
        Error::Memory(_) => String::from_str(alloc, "memory"),
        Error::EnvVar(_) => String::from_str(alloc, "absent"),
    }
}

/// `ok`, or the fault.
pub fn answer<A: Allocator>(
    alloc: Global,
    answer: &dotenvy::Result<(), A>,
) -> std::result::Result<String, AllocError> {
    match answer {
        Ok(()) => String::from_str(alloc, "ok"),
        Err(error) => fault(alloc, error),
    }
}

/// A pair, as `A=1`, or the fault.
pub fn item<A: Allocator>(
    alloc: Global,
    item: &dotenvy::Result<(String<A>, String<A>), A>,
) -> std::result::Result<String, AllocError> {
    match item {
        Ok((key, value)) => format!(in alloc; "{key}={value}"),
        Err(error) => fault(alloc, error),
    }
}

/// The next item, or `None` where there is none.
pub fn next_item<S: Source, A: Allocator + Clone>(
    alloc: Global,
    entries: &mut Iter<S, A>,
    environment: &Environment<A>,
) -> std::result::Result<Option<String>, AllocError> {
    match entries.next_item(environment) {
        Some(answered) => Ok(Some(item(alloc, &answered)?)),
        None => Ok(None),
    }
}

/// The items that are left.
pub fn items<S: Source, A: Allocator + Clone>(
    alloc: Global,
    entries: &mut Iter<S, A>,
    environment: &Environment<A>,
) -> std::result::Result<Vec<String>, AllocError> {
    let mut items = Vec::new(alloc);
    for answered in entries.items(environment) {
        items.push(item(alloc, &answered)?)?;
    }
    Ok(items)
}

/// Adds the items up to refused memory, which is the answer then.
pub fn push_items<S: Source, A: Allocator + Clone>(
    items: &mut Vec<String>,
    entries: &mut Iter<S, A>,
    environment: &Environment<A>,
) -> dotenvy::Result<(), A> {
    let mut answer = Ok(());
    for answered in entries.items(environment) {
        match answered {
            Err(Error::Memory(refused)) => answer = Err(Error::Memory(refused)),
            _ => items.push(item(*items.allocator(), &answered)?)?,
        }
    }
    answer
}

/// The names and values, each as `A=1`.
pub fn pairs<A: Allocator>(
    alloc: Global,
    environment: &Environment<A>,
) -> std::result::Result<Vec<String>, AllocError> {
    let mut pairs = Vec::new(alloc);
    push_pairs(&mut pairs, environment)?;
    Ok(pairs)
}

/// What a load answered, and then the names and values that it left.
pub fn loaded<A: Allocator>(
    alloc: Global,
    answered: &dotenvy::Result<(), A>,
    environment: &Environment<A>,
) -> std::result::Result<Vec<String>, AllocError> {
    let mut texts = Vec::new(alloc);
    texts.push(answer(alloc, answered)?)?;
    push_pairs(&mut texts, environment)?;
    Ok(texts)
}

/// What a call answered that writes, and then what was written, where something was.
pub fn written<A: Allocator>(
    alloc: Global,
    answered: &dotenvy::Result<(), A>,
    output: Vec<u8>,
) -> Result<Vec<String>> {
    let mut texts = Vec::new(alloc);
    texts.push(answer(alloc, answered)?)?;
    if !output.is_empty() {
        texts.push(String::from_utf8(output)?)?;
    }
    Ok(texts)
}

fn push_pairs<A: Allocator>(
    texts: &mut Vec<String>,
    environment: &Environment<A>,
) -> std::result::Result<(), AllocError> {
    let alloc = *texts.allocator();
    for (name, value) in environment.iter() {
        texts.push(format!(in alloc; "{name}={value}")?)?;
    }
    Ok(())
}
