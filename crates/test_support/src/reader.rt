//! A reader that plays a list of steps: bytes, interruptions, faults and ends (docs/ROWS.md, "Steps").

use crate::notation::{bytes, kind, list, repeated};
use anyhow::Result;
use dotenvy::Source;
use std::alloc::Global;
use std::io::ErrorKind;
use std::{io, slice};

/// What a read does.
#[derive(Drop)]
pub enum Step {
    /// Gives these bytes: some now and the others at the next reads, where there is no room for all.
    Give(Vec<u8>),
    /// Answers a fault of this kind, or an interruption.
    Fail(ErrorKind),
    /// Answers the end, though steps may follow.
    End,
}

/// The steps of a list such as `A=1%0a; fail Interrupted x3; fail TimedOut; end`.
pub fn steps(alloc: Global, field: &str) -> Result<Vec<Step>> {
    let mut steps = Vec::new(alloc);
    for written in list(alloc, field)? {
        push_steps(&mut steps, written)?;
    }
    Ok(steps)
}

// Adds what `fail Interrupted x3`, `fail TimedOut`, `end` or bytes say.
fn push_steps(steps: &mut Vec<Step>, written: &str) -> Result<()> {
    let alloc = *steps.allocator();
    match (written, written.strip_prefix("fail ")) {
        ("end", _) => steps.push(Step::End)?,
        (_, Some(failing)) => push_failing(steps, failing)?,
        _ => steps.push(Step::Give(bytes(alloc, written)?))?,
    }
    Ok(())
}

// Adds reads that fail: `Interrupted x3`.
fn push_failing(steps: &mut Vec<Step>, failing: &str) -> Result<()> {
    let (name, times) = repeated(failing)?;
    let kind = kind(name)?;
    for _ in 0..times {
        steps.push(Step::Fail(kind))?;
    }
    Ok(())
}

/// How the bytes of the steps are cut.
#[derive(Clone, Copy, Debug, PartialEq, Eq)]
pub enum Cut {
    /// As many bytes a read as there is room for.
    Whole,
    /// One byte a read.
    ByByte,
    /// One byte a read, with an interrupted read before each read that would answer anything.
    Interrupted,
}

/// Takes one step a read, and answers the end after the last.
#[derive(Drop)]
pub struct PlayedReader<'a> {
    steps: slice::Iter<'a, Step>,
    rest: &'a [u8],
    cut: Cut,
    /// Whether the read before was an interrupted one, where each second read is.
    was_interrupted: bool,
}

impl<'a> PlayedReader<'a> {
    /// Plays these steps.
    pub fn new(steps: &'a [Step], cut: Cut) -> PlayedReader<'a> {
        PlayedReader {
            steps: steps.iter(),
            rest: b"",
            cut,
            was_interrupted: false,
        }
    }

    fn is_interrupted(&mut self) -> bool {
        self.was_interrupted = self.cut == Cut::Interrupted && !self.was_interrupted;
        self.was_interrupted
    }
}

impl Source for PlayedReader<'_> {
    fn read_some(&mut self, buf: &mut [u8]) -> io::Result<usize> {
        if self.is_interrupted() {
            return Err(io::Error::from(ErrorKind::Interrupted));
        }
        if self.rest.is_empty() {
            match self.steps.next() {
                Some(Step::Give(bytes)) => self.rest = bytes.as_slice(),
                Some(Step::Fail(kind)) => return Err(io::Error::from(*kind)),
                Some(Step::End) | None => return Ok(0),
            }
        }
        let most = match self.cut {
            Cut::Whole => buf.len(),
            Cut::ByByte | Cut::Interrupted => 1,
        };
        let count = self.rest.len().min(buf.len()).min(most);
        let (now, later) = self.rest.split_at(count);
        buf[..count].copy_from_slice(now);
        self.rest = later;
        Ok(count)
    }
}
