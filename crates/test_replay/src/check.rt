//! Rows of the kinds `check` and `refused_check`: what is reported of a file.

use crate::answer::push_answer;
use crate::file::{CUTS, dialect};
use crate::refused::MOST_REQUESTS;
use crate::row::refuse_count;
use anyhow::{Result, bail};
use dotenvy::{Bytes, Dialect, Error, Iter, Plain, Source};
use dotenvy_checker::check::{Found, Reporting, Watched, check};
use dotenvy_checker::failure::Stop;
use std::alloc::{Allocator, Global};
use test_comparison::Comparison;
use test_support::answers::fault;
use test_support::environment::environment_of;
use test_support::notation::{bytes, pairs, text};
use test_support::reader::{PlayedReader, Step};
use test_support::writer::PlayedWriter;
use test_support::{Rationed, reader, writer};

// How a file is read, what it is called, and the names that are there.
#[derive(Drop)]
struct Checked {
    dialect: Dialect,
    name: String,
    names: Vec<(String, String)>,
}

impl Checked {
    fn parse(alloc: Global, dialect_field: &str, name: &str, names: &str) -> Result<Checked> {
        Ok(Checked {
            dialect: dialect(dialect_field)?,
            name: text(alloc, name)?,
            names: pairs(alloc, names)?,
        })
    }

    // Checks what this reader gives. `plenty` is for the names that are there, and `alloc` for the check.
    fn check<R: Source + Drop, A: Allocator + Clone>(
        &self,
        plenty: A,
        alloc: A,
        reader: R,
        writer: &mut Plain<PlayedWriter>,
    ) -> Result<std::result::Result<Found, Stop<A>>> {
        let environment = environment_of(plenty, &self.names)?;
        let watched = match alloc.clone().and_then(|alloc| Watched::new(alloc, reader)) {
            Ok(watched) => watched,
            Err(refused) => return Ok(Err(Stop::Memory(refused))),
        };
        let mut how = Reporting::TEXT;
        match Iter::with_dialect(alloc, watched, self.dialect) {
            Ok(file) => Ok(check(file, self.name.as_str(), &environment, &mut how, writer).map(
                |checked| checked.found,
            )),
            Err(Error::Memory(refused)) => Ok(Err(Stop::Memory(refused))),
            Err(error) => Ok(Err(Stop::Read(error))),
        }
    }
}

// What is found, and what was written, if anything was.
fn told<A: Allocator>(
    alloc: Global,
    answered: &std::result::Result<Found, Stop<A>>,
    written: Vec<u8>,
) -> Result<Vec<String>> {
    let mut texts = vec![in alloc;
        match answered {
            Ok(found) => String::from_str(alloc, found_text(*found))?,
            Err(Stop::Read(error)) => format!(in alloc; "read {}", fault(alloc, error)?)?,
            Err(Stop::Write(error)) => format!(in alloc; "write {}", fault(alloc, error)?)?,
            Err(Stop::Memory(_)) => String::from_str(alloc, "memory")?,
        },
    ]?;
    if !written.is_empty() {
        texts.push(String::from_utf8(written)?)?;
    }
    Ok(texts)
}

fn found_text(found: Found) -> &'static str {
    match (found.faults, found.warnings) {
        (false, false) => "nothing",
        (false, true) => "warnings",
        (true, false) => "faults",
        (true, true) => "faults and warnings",
    }
}

/// Plays a row of kind `check`.
pub fn play(answers: &mut Vec<Comparison>, fields: &[&str]) -> Result<()> {
    let [dialect, name, names, input, output, wanted] = fields else {
        return refuse_count(fields, 6);
    };
    let alloc = *answers.allocator();
    let checked = Checked::parse(alloc, dialect, name, names)?;
    let input: Vec<Step> = reader::steps(alloc, input)?;
    for (cut, way) in CUTS {
        let mut writer = Plain::new(PlayedWriter::new(alloc, writer::steps(alloc, output)?));
        let reader = PlayedReader::new(&input, cut);
        let answered = checked.check(alloc, alloc, reader, &mut writer)?;
        let got = told(alloc, &answered, writer.into_inner().into_taken())?;
        push_answer(answers, "report", way, wanted, got)?;
    }
    Ok(())
}

// What a check of the file answers, and writes, with the request of this number refused, and whether there was such a
// request.
fn told_at_refusal(
    alloc: Global,
    checked: &Checked,
    file: &[u8],
    number: u64,
) -> Result<(Vec<String>, bool)> {
    let plenty = Rationed::refusing(alloc, u64::MAX);
    let ration = Rationed::refusing(alloc, number);
    let mut writer = Plain::new(PlayedWriter::new(alloc, Vec::new(alloc)));
    let answered = checked.check(&plenty, &ration, Bytes::new(file), &mut writer)?;
    let got = told(alloc, &answered, writer.into_inner().into_taken())?;
    Ok((got, ration.has_refused()))
}

// Whether this is written of a report, up to the end of a line.
fn is_front(written: &str, report: &str) -> bool {
    report.starts_with(written) && (written.is_empty() || written.ends_with('\n'))
}

// What is answered at a refusal, without what is written, if that is a first part of the report: of whole findings.
fn without_front(got: Vec<String>, report: &str) -> Vec<String> {
    let mut rest = got;
    if rest.len() == 2 && is_front(rest[1].as_str(), report) {
        rest.truncate(1);
    }
    rest
}

/// Plays a row of kind `refused_check`.
pub fn play_refused(answers: &mut Vec<Comparison>, fields: &[&str]) -> Result<()> {
    let [dialect, name, names, file, wanted] = fields else {
        return refuse_count(fields, 5);
    };
    let alloc = *answers.allocator();
    let checked = Checked::parse(alloc, dialect, name, names)?;
    let file = bytes(alloc, file)?;
    let (whole, _) = told_at_refusal(alloc, &checked, &file, u64::MAX)?;
    let report = match whole.get(1) {
        Some(report) => report.clone()?,
        None => String::new(alloc),
    };
    push_answer(answers, "report", "in all", wanted, whole)?;
    for number in 1..MOST_REQUESTS {
        let (got, is_refused) = told_at_refusal(alloc, &checked, &file, number)?;
        if !is_refused {
            return Ok(());
        }
        let got = without_front(got, report.as_str());
        push_answer(answers, "report", "at a refusal", "memory", got)?;
    }
    bail!("each run met a refusal")
}
