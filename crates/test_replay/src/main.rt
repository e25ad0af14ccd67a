//! Replays rows of cases through the public calls: `test_replay FILE..` plays each row of the files, prints where an answer
//! is not the one that the row has, and ends with status 1 where one isn't. docs/ROWS.md says how rows are written.
#![tactic(auto)]

mod answer;
mod call;
mod check;
mod check_run;
mod command;
mod counts;
mod cut;
mod file;
mod kinds;
mod layers;
mod notation;
mod reader_call;
mod reads;
mod refused;
mod refused_call;
mod refused_reads;
mod refused_words;
mod rest;
mod row;
mod scene;
mod search;
mod stopped;
mod used;
mod words;
mod written;

use anyhow::{Context, Result, bail};
use counts::Counts;
use kinds::play;
use row::{Row, with_numbers};
use std::process::ExitCode;
use std::{env, fs};
use test_comparison::tell_differences;

/// Plays the row of a line, if it has one, and counts it.
fn play_line(rt: HostRuntime, line: &str, counts: &mut Counts) -> Result<()> {
    let line = with_numbers(rt.alloc(), line)?;
    let Some(row) = Row::parse(rt.alloc(), line.as_str())? else {
        return Ok(());
    };
    let mut answers = Vec::new(rt.alloc());
    play(&mut answers, rt, row.kind, row.fields.as_slice()).context(format_args!("{}", row.name))?;
    counts.add(tell_differences(&rt, row.name, &answers)?);
    Ok(())
}

/// Plays each row of a file, prints how many there were, and tells whether all answers were right.
fn play_file(rt: HostRuntime, name: &str) -> Result<bool> {
    let text = fs::read_to_string(&rt, name).context(format_args!("reading {name}"))?;
    let mut counts = Counts::new();
    for line in text.lines() {
        play_line(rt, line, &mut counts)?;
    }
    println!(&rt; "{name}: {counts}")?;
    Ok(counts.none_differs())
}

/// Plays the files that the words name, and tells whether all answers were right.
fn run(rt: HostRuntime) -> Result<bool> {
    let mut all_right = true;
    let mut is_any = false;
    for name in env::args(&rt)?.skip(1) {
        is_any = true;
        all_right = play_file(rt, name.as_str())? && all_right;
    }
    if !is_any {
        bail!("missing required argument <FILE>");
    }
    Ok(all_right)
}

fn main(rt: HostRuntime) -> Result<ExitCode> {
    let status = if run(rt)? { 0 } else { 1 };
    Ok(ExitCode::from(status))
}
