//! Rows of kind `search`: which paths a search asks for, and what it answers.

use crate::answer::push_answer;
use crate::row::refuse_count;
use anyhow::{Result, bail};
use dotenvy::search;
use dotenvy::search::Look;
use std::alloc::Global;
use std::io;
use std::path::{Path, PathBuf};
use test_comparison::Comparison;
use test_support::answers::fault;
use test_support::looks::PlayedLooks;
use test_support::notation::{kind, list, text};

fn look(written: &str) -> Result<Look> {
    match (written, written.strip_prefix("fail ")) {
        ("File", _) => Ok(Look::File),
        ("Other", _) => Ok(Look::Other),
        (_, Some(name)) => Ok(Look::Fault(io::Error::from(kind(name)?))),
        _ => bail!("no look is called {written}"),
    }
}

fn looks(alloc: Global, field: &str) -> Result<Vec<Look>> {
    let mut looks = Vec::new(alloc);
    for written in list(alloc, field)? {
        looks.push(look(written)?)?;
    }
    Ok(looks)
}

fn found(alloc: Global, answer: dotenvy::Result<PathBuf>) -> Result<Vec<String>> {
    let text = match answer {
        Ok(path) => path.into_string(),
        Err(error) => fault(alloc, &error)?,
    };
    Ok(vec![in alloc; text]?)
}

/// Plays a row, and adds its answers.
pub fn play(answers: &mut Vec<Comparison>, fields: &[&str]) -> Result<()> {
    let alloc = *answers.allocator();
    let [directory, filename, looks_field, asked, answer] = fields else {
        return refuse_count(fields, 5);
    };
    let directory = text(alloc, directory)?;
    let filename = text(alloc, filename)?;
    let mut played = PlayedLooks::new(alloc, looks(alloc, looks_field)?);
    let got = search::find(
        alloc,
        Path::new(directory.as_str()),
        Path::new(filename.as_str()),
        &mut |path| { played.look(path) },
    );
    push_answer(answers, "path", "found", answer, found(alloc, got)?)?;
    push_answer(answers, "paths", "asked", asked, played.into_asked())
}
